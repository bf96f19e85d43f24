//! Why a command is not done: each fault's printed line and its status.

use crate::player_refusal::PlayerRefusal;
use rbg_console::{Refusal, Status};
use rbg_game::LoadError;
use rbg_hosting::ServingFault;
use rbg_network::{ClientError, GatherError};
use rbg_player::PlayerError;
use std::alloc::AllocError;
use std::io::{self, Write};
use thiserror::Error;

/// Why the program doesn't do what a command asks for. Its text is the printed line.
#[derive(Debug, Drop, Error)]
pub enum Fault {
    /// The description is refused.
    #[error("refused {0}")]
    Refused(Refusal),
    /// The config of the match is outside its limits. The words of no command give such a one.
    #[error("script 1")]
    Config,
    /// This line of the log of a match that goes on is missing, or not of its form.
    #[error("script {0}")]
    Script(usize),
    /// A file or standard input can't be read, a log or a record can't be made or written, a log is of another game or held by
    /// another process, or a connection can't be made, read or written.
    #[error("device")]
    Device,
    /// The match, or the player's part in it, did not end in as many rounds, or as much time, as it may have.
    #[error("rounds")]
    Rounds,
    /// Not all players have come in time. This is told on standard error, and has no printed line.
    #[error("")]
    Absent,
    /// The player gives up.
    #[error("refused player {0}")]
    Player(PlayerRefusal),
    #[error("memory")]
    Memory(#[from(alloc)] AllocError),
}

impl Fault {
    /// The status with which the program ends.
    pub(crate) fn status(&self) -> Status {
        match self {
            Fault::Refused(_) => Status::Refused,
            Fault::Config => Status::BadInput,
            Fault::Script(_) => Status::BadInput,
            Fault::Device => Status::Device,
            Fault::Rounds => Status::Device,
            Fault::Absent => Status::Device,
            Fault::Player(_) => Status::Device,
            Fault::Memory(_) => Status::Memory,
        }
    }
}

impl From<LoadError> for Fault {
    fn from(error: LoadError) -> Fault {
        if error.is_memory() {
            Fault::Memory(AllocError)
        } else {
            Fault::Refused(Refusal(error))
        }
    }
}

impl From<ServingFault> for Fault {
    fn from(error: ServingFault) -> Fault {
        match error {
            ServingFault::Refused(error) => Fault::from(error),
            ServingFault::Config => Fault::Config,
            ServingFault::Script(line) => Fault::Script(line),
            ServingFault::Device => Fault::Device,
            ServingFault::Absent => Fault::Absent,
            ServingFault::Rounds => Fault::Rounds,
            ServingFault::Memory(error) => Fault::Memory(error),
        }
    }
}

impl From<PlayerError> for Fault {
    fn from(error: PlayerError) -> Fault {
        match error {
            PlayerError::Memory => Fault::Memory(AllocError),
            _ => Fault::Player(PlayerRefusal(error)),
        }
    }
}

impl From<ClientError> for Fault {
    fn from(error: ClientError) -> Fault {
        match error {
            ClientError::Device => Fault::Device,
            ClientError::Player(error) => Fault::from(error),
        }
    }
}

impl From<GatherError> for Fault {
    fn from(error: GatherError) -> Fault {
        match error {
            GatherError::Device(_) => Fault::Device,
            GatherError::Absent => Fault::Absent,
            GatherError::Memory(error) => Fault::Memory(error),
        }
    }
}

impl From<io::Error> for Fault {
    fn from(_error: io::Error) -> Fault {
        Fault::Device
    }
}

/// Writes the fault's printed line, if it has one.
pub(crate) fn write_fault<W: Write>(output: &mut W, fault: &Fault) -> io::Result<()> {
    match fault {
        Fault::Absent => {}
        _ => writeln!(output, "{fault}")?,
    }
    output.flush()
}
