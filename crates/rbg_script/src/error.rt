//! Why a text is no script.
ghost use Rattle.std.specs.Prelude.{◌≡◌};
ghost use Rattle.rbg_script.specs.declared.error.ScriptError.TheVariants.{Memory as OutOfMemory};

use rbg_base::Memory;
use thiserror::Error;

/// Why a text is no script.
#[derive(Clone, Copy, Debug, PartialEq, Eq, Error)]
pub enum ScriptError {
    /// The number of the first line that is missing or not of its form, counted from 1.
    #[error("line {0} of the script is not of its form")]
    Line(usize),
    #[error("out of memory")]
    Memory,
}

impl From<Memory> for ScriptError {
    ghost from_gives = { λ _ error. error ≡ OutOfMemory };

    fn from(_memory: Memory) -> ScriptError {
        ScriptError::Memory
    }
}
