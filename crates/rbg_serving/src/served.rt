//! What serving a match answers.
ghost use Rattle.std.specs.Prelude.{◌≡◌};

use rbg_base::Memory as OutOfMemory;
use std::alloc::AllocError;
use thiserror::Error;

/// The match has ended.
#[derive(Clone, Copy, PartialEq, Eq)]
pub struct Served {
    /// How many rounds it took.
    pub rounds: u64,
    /// Whether every line took all that was queued for it.
    pub whole: bool,
}

/// Why a match was not served to its end.
#[derive(Clone, Copy, Debug, PartialEq, Eq, Error)]
pub enum ServeError {
    /// After that many rounds the match had not ended, or a line that had neither ended nor failed had not taken all.
    #[error("out of rounds")]
    Rounds,
    /// A request for memory failed.
    #[error("out of memory")]
    Memory,
}

impl From<OutOfMemory> for ServeError {
    ghost use Rattle.rbg_serving.specs.declared.served.ServeError.TheVariants.{Memory};

    ghost from_gives = { λ _ error. error ≡ Memory };

    fn from(_memory: OutOfMemory) -> ServeError {
        ServeError::Memory
    }
}
