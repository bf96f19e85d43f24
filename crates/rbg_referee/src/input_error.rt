//! Why a match has no printed lines.
ghost use Rattle.rbg_referee.specs.Errors.{IsOfLoad, IsOfReferee, IsOfScript};

use crate::error::RefereeError;
use rbg_game::LoadError;
use rbg_script::ScriptError;
use thiserror::Error;

/// Why a match has no printed lines.
#[derive(Clone, Copy, Debug, PartialEq, Eq, Error)]
pub enum RefereeingError {
    /// The description is no game's. The error is not out of memory.
    #[error("{0}")]
    Load(LoadError),
    /// The number of the script's first line that is missing or not of its form; 0 if the input has no line `%%`.
    #[error("line {0} of the script is not of its form")]
    Script(usize),
    #[error("out of memory")]
    Memory,
}

impl From<LoadError> for RefereeingError {
    ghost from_gives = { λ load error. IsOfLoad load error };

    fn from(error: LoadError) -> RefereeingError {
        if error.is_memory() {
            RefereeingError::Memory
        } else {
            RefereeingError::Load(error)
        }
    }
}

impl From<RefereeError> for RefereeingError {
    ghost from_gives = { λ referee error. IsOfReferee referee error };

    fn from(error: RefereeError) -> RefereeingError {
        match error {
            RefereeError::Load(error) => RefereeingError::from(error),
            RefereeError::Config => RefereeingError::Script(1),
            RefereeError::Memory { .. } => RefereeingError::Memory,
        }
    }
}

impl From<ScriptError> for RefereeingError {
    ghost from_gives = { λ script error. IsOfScript script error };

    fn from(error: ScriptError) -> RefereeingError {
        match error {
            ScriptError::Line(line) => RefereeingError::Script(line),
            ScriptError::Memory => RefereeingError::Memory,
        }
    }
}
