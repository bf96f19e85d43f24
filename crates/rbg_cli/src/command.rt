//! What the program is asked to do.

use rbg_hosting::Serving;
use rbg_match::Config;
use rbg_serving::Clock;

/// What the program is asked to do, with the names of its files.
#[derive(Drop)]
pub enum Command<'a> {
    /// To print how many of each thing the game has.
    Check {
        file: &'a str,
    },
    /// To print the moves of the opening, and the legal moves after it.
    Moves {
        file: &'a str,
    },
    /// To print the moves with which play can go on after a record.
    MovesAfter {
        file: &'a str,
        record_file: &'a str,
    },
    /// To answer questions about the game that the file describes.
    Ask {
        file: &'a str,
    },
    /// To referee the match whose description and script are on standard input.
    RefereeInput,
    /// To referee the match of the file's game whose script is on standard input.
    Referee {
        file: &'a str,
    },
    /// To referee a match as `Referee` does, or as `RefereeInput` where no file is named, with its record in a new file.
    Recorded {
        file: Option<&'a str>,
        target: &'a str,
    },
    /// The same without a record, where a last line of the script that isn't whole is left out.
    Cut {
        file: Option<&'a str>,
    },
    /// To tell whether a record is right.
    Replay {
        file: &'a str,
        record_file: &'a str,
    },
    /// To print a record of version 1 as one of version 2.
    Migrate {
        file: &'a str,
        record_file: &'a str,
    },
    /// To print a script of a record.
    Script {
        record_file: &'a str,
    },
    /// To referee a match between players of this process.
    Demo {
        file: &'a str,
        service: Service,
    },
    /// To referee a match between the players that connect to a port.
    Serve(ServedMatch<'a>),
    /// To play in a match that is served at a port.
    Play(Seat),
    /// To referee several matches at once, between the players that connect to a port and join them.
    Hall(ServedHall<'a>),
    /// To let a hall, with a table for the game of each file, hear a script.
    HallScript {
        names: Vec<&'a str>,
    },
}

/// A match of the file's game that is served at a port.
#[derive(Clone, Copy)]
pub struct ServedMatch<'a> {
    pub file: &'a str,
    pub serving: Serving<'a>,
}

/// A match of each file's game, all served at a port.
#[derive(Drop)]
pub struct ServedHall<'a> {
    pub names: Vec<&'a str>,
    pub serving: Serving<'a>,
}

/// A seat of the match that is served at the port, or of this one of the matches there.
#[derive(Clone, Copy)]
pub struct Seat {
    pub port: u16,
    pub table: Option<u64>,
    pub bound: Bound,
}

/// How a match between players of this process is served.
#[derive(Clone, Copy)]
pub struct Service {
    pub config: Config,
    /// The most rounds.
    pub rounds: u64,
    /// By which seed the players choose their moves. Without one each makes its first one.
    pub seed: Option<u64>,
}

/// How long a player goes on.
#[derive(Clone, Copy)]
pub struct Bound {
    /// The most reads.
    pub rounds: u64,
    /// The most minutes. Then the reads aren't counted.
    pub minutes: Option<u64>,
}

impl Bound {
    /// The most reads.
    pub(crate) fn most_rounds(self) -> u64 {
        match self.minutes {
            Some(_) => u64::MAX,
            None => self.rounds,
        }
    }

    /// Whether the minutes are over by this clock, which began with 0.
    pub(crate) fn is_over<C: Clock>(self, clock: &mut C) -> bool {
        match self.minutes {
            Some(minutes) => minutes.saturating_mul(60_000) <= clock.now(),
            None => false,
        }
    }
}
