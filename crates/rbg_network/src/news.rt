//! What an organiser is told while a match over connections is prepared and played.

use crate::ClientError;
use rbg_wire::Outcome;
use std::fmt::{self, Formatter};
use std::io;

/// What an organiser is told, apart from the program's answer. Its text is a line without its end.
#[derive(Clone, Copy)]
pub enum News<'a> {
    /// Players can connect to this port.
    Listening { port: u16 },
    /// The match may take that many rounds.
    MostRounds { rounds: u64 },
    /// The match may take that many minutes.
    MostMinutes { minutes: u64 },
    /// A player has connected, and has this seat.
    Connected { seat: usize },
    /// The connection of this seat was closed before the match began. The seat is free again.
    Left { seat: usize },
    /// Not all players have come in this many seconds.
    Absent { seconds: u64 },
    /// All seats are taken.
    Begins,
    /// All seats are taken, and a match goes on that was stopped.
    GoesOn,
    /// The match has ended.
    Ended { outcome: Outcome },
    /// The match has ended, and the connection of this seat took nothing of what was left for it.
    TookNothing { seat: usize },
    /// The match did not end in this many rounds.
    Unfinished { rounds: u64 },
    /// The match did not end within this many minutes.
    OutOfTime { minutes: u64 },
    /// Beside the log of a match that goes on there is no file that names its game.
    Unnamed { log: &'a str },
    /// The file beside the log of a match that is to go on doesn't name this game.
    OtherGame { log: &'a str },
    /// What was to be printed couldn't be written.
    Unwritten { what: &'a str, error: &'a io::Error },
    /// Who sits on a seat, as the organiser says.
    Sits { seat: usize, name: &'a str },
    /// The player of this process that has this seat gave up.
    GaveUp { seat: usize, error: ClientError },
    /// The player of this process lost its connection to this port.
    Lost { port: u16, error: ClientError },
    /// This process plays for this player.
    Plays { player: u64, name: &'a str },
    /// News of the match of this number in a hall.
    OfMatch { number: u64, news: MatchNews<'a> },
}

/// What an organiser is told of a match in a hall.
#[derive(Clone, Copy)]
pub enum MatchNews<'a> {
    /// A player has connected, and has this seat.
    Connected { seat: usize },
    /// The connection of this seat was closed before the matches began. The seat is free again.
    Left { seat: usize },
    /// All its seats are taken.
    Begins,
    /// It goes on from its log, and waits for its players again.
    GoesOn,
    /// It has ended.
    Ended { outcome: Outcome },
    /// All matches have ended, and the connection of this seat took nothing of what was left for it.
    TookNothing { seat: usize },
    /// It did not end in this many rounds.
    Unfinished { rounds: u64 },
    /// It did not end within this many minutes.
    OutOfTime { minutes: u64 },
    /// Who sits on a seat, as the organiser says.
    Sits { seat: usize, name: &'a str },
}

impl fmt::Display for News<'_> {
    fn fmt<W: fmt::Write>(&self, f: &mut Formatter<W>) -> fmt::Result {
        match self {
            News::Listening { port } => {
                write_number(f, "listening on port ", u64::from(*port), "")
            }
            News::MostRounds { rounds } => write_count(f, *rounds, "a match may take", "round"),
            News::MostMinutes { minutes } => write_count(f, *minutes, "a match may take", "minute"),
            News::Connected { seat } => write_number(f, "seat ", *seat as u64, " connected"),
            News::Left { seat } => write_number(f, "seat ", *seat as u64, " left"),
            News::Absent { seconds } => {
                write_count(f, *seconds, "not all seats were taken within", "second")
            }
            News::Begins => f.write_str("match begins"),
            News::GoesOn => f.write_str("match goes on"),
            News::Ended { outcome } => write_end(f, outcome),
            News::TookNothing { seat } => {
                write_number(f, "seat ", *seat as u64, " took nothing for 10 seconds")
            }
            News::Unfinished { rounds } => {
                write_count(f, *rounds, "match not ended within", "round")
            }
            News::OutOfTime { minutes } => {
                write_count(f, *minutes, "match not ended within", "minute")
            }
            News::Unnamed { log } => {
                write!(
                    f,
                    "the log {log} doesn't name its game: {log}.game isn't there"
                )
            }
            News::OtherGame { log } => write!(f, "the log {log} is of another game, by {log}.game"),
            News::Unwritten { what, error } => {
                write!(f, "can't write {what} to standard output: {error}")
            }
            News::Sits { seat, name } => write_name(f, "is", name, *seat as u64),
            News::GaveUp { seat, error } => {
                write_failure(f, *error, "seat ", *seat as u64, " gave up")
            }
            News::Lost { port, error } => write_failure(f, *error, "port ", u64::from(*port), ""),
            News::Plays { player, name } => write_name(f, "plays", name, *player),
            News::OfMatch { number, news } => {
                write_number(f, "match ", *number, "")?;
                write_of_match(f, news)
            }
        }
    }
}

/// What is told of a match, after its number.
fn write_of_match<W: fmt::Write>(f: &mut Formatter<W>, news: &MatchNews<'_>) -> fmt::Result {
    match news {
        MatchNews::Connected { seat } => { write_number(f, ": seat ", *seat as u64, " connected") }
        MatchNews::Left { seat } => write_number(f, ": seat ", *seat as u64, " left"),
        MatchNews::Begins => f.write_str(" begins"),
        MatchNews::GoesOn => f.write_str(" goes on"),
        MatchNews::Ended { outcome } => {
            f.write_str(" ended: ")?;
            write_outcome(f, outcome)
        }
        MatchNews::TookNothing { seat } => write_number(
            f,
            ": seat ",
            *seat as u64,
            " took nothing for 10 seconds",
        ),
        MatchNews::Unfinished { rounds } => write_count(f, *rounds, " not ended within", "round"),
        MatchNews::OutOfTime { minutes } => {
            write_count(f, *minutes, " not ended within", "minute")
        }
        MatchNews::Sits { seat, name } => {
            f.write_str(": ")?;
            write_name(f, "is", name, *seat as u64)
        }
    }
}

/// A number between two texts.
fn write_number<W: fmt::Write>(
    f: &mut Formatter<W>,
    before: &str,
    number: u64,
    after: &str,
) -> fmt::Result {
    write!(f, "{before}{number}{after}")
}

/// So many of something with this name, after a text.
fn write_count<W: fmt::Write>(
    f: &mut Formatter<W>,
    count: u64,
    before: &str,
    name: &str,
) -> fmt::Result {
    let ending = if count == 1 { "" } else { "s" };
    write!(f, "{before} {count} {name}{ending}")
}

/// What a seat has to do with a name.
fn write_name<W: fmt::Write>(
    f: &mut Formatter<W>,
    verb: &str,
    name: &str,
    seat: u64,
) -> fmt::Result {
    write!(f, "seat {seat} {verb} {name}")
}

/// How a match ended.
fn write_end<W: fmt::Write>(f: &mut Formatter<W>, outcome: &Outcome) -> fmt::Result {
    f.write_str("match ended: ")?;
    write_outcome(f, outcome)
}

/// An outcome, by the message that the seats are sent.
fn write_outcome<W: fmt::Write>(f: &mut Formatter<W>, outcome: &Outcome) -> fmt::Result {
    match outcome {
        Outcome::Finished { scores } => write_scores(f, scores.as_slice()),
        Outcome::Time { player } => write_number(f, "E1 ", *player, ""),
        Outcome::Refusals { player } => write_number(f, "E2 ", *player, ""),
        Outcome::Gone { player } => write_number(f, "E3 ", *player, ""),
        Outcome::Heavy => f.write_str("E4"),
    }
}

/// The message of a match that was played to its end, with each score, a space before it.
fn write_scores<W: fmt::Write>(f: &mut Formatter<W>, scores: &[u64]) -> fmt::Result {
    f.write_str("E0")?;
    for score in scores {
        write!(f, " {score}")?;
    }
    Ok(())
}

/// An error after a number between two texts.
fn write_failure<W: fmt::Write>(
    f: &mut Formatter<W>,
    error: ClientError,
    before: &str,
    number: u64,
    after: &str,
) -> fmt::Result {
    write!(f, "{before}{number}{after}: {error}")
}
