//! Why no script is made of a text.
ghost use Rattle.std.specs.Prelude.{◌≡◌};
ghost use Rattle.rbg_record.specs.declared.script_error.ScriptingError.TheVariants.{Form as NotOfForm, Memory as OutOfMemory};

use crate::FormError;
use rbg_base::Memory;
use thiserror::Error;

/// Why no script is made of a text. Lines are numbered from 1.
#[derive(Clone, Copy, Debug, PartialEq, Eq, Error)]
pub enum ScriptingError {
    /// This line of the record is missing, or not of the form.
    #[error("line {0} is missing or not of the form")]
    Form(usize),
    #[error("out of memory")]
    Memory,
}

impl From<FormError> for ScriptingError {
    ghost from_gives = { λ fault error. error ≡ NotOfForm fault.line };

    fn from(fault: FormError) -> ScriptingError {
        ScriptingError::Form(fault.line)
    }
}

impl From<Memory> for ScriptingError {
    ghost from_gives = { λ _ error. error ≡ OutOfMemory };

    fn from(_memory: Memory) -> ScriptingError {
        ScriptingError::Memory
    }
}
