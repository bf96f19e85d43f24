//! Why a match can't be made.
ghost use Rattle.std.specs.Prelude.{◌≡◌};
ghost use Rattle.rbg_match.specs.declared.error.MatchError.TheVariants.{Memory as OutOfMemory};

use rbg_base::Memory;
use thiserror::Error;

/// Why a match can't be made.
#[derive(Clone, Copy, Debug, PartialEq, Eq, Error)]
pub enum MatchError {
    /// A number of the config is outside its limits.
    #[error("a number of the config is outside its limits")]
    Config,
    /// A request for memory failed.
    #[error("out of memory")]
    Memory,
}

impl From<Memory> for MatchError {
    ghost from_gives = { λ _ error. error ≡ OutOfMemory };

    fn from(_memory: Memory) -> MatchError {
        MatchError::Memory
    }
}
