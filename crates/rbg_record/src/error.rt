//! Why there is no verdict on a record.
ghost use Rattle.std.specs.Prelude.{◌≡◌};
ghost use Rattle.rbg_record.specs.declared.error.RecordError.TheVariants.{Form as NotOfForm, Memory as OutOfMemory};

use crate::FormError;
use rbg_base::Memory;
use thiserror::Error;

/// Why there is no verdict on a record. Lines are numbered from 1.
#[derive(Clone, Copy, Debug, PartialEq, Eq, Error)]
pub enum RecordError {
    /// This line is missing, or not of the form.
    #[error("line {line} is missing or not of the form")]
    Form { line: usize },
    /// A question about this line is above the limits.
    #[error("a question about line {line} is above the limits")]
    Over { line: usize },
    /// A request for memory failed.
    #[error("out of memory")]
    Memory,
}

impl From<FormError> for RecordError {
    ghost from_gives = { λ fault error. error ≡ NotOfForm fault.line };

    fn from(fault: FormError) -> RecordError {
        RecordError::Form { line: fault.line }
    }
}

impl From<Memory> for RecordError {
    ghost from_gives = { λ _ error. error ≡ OutOfMemory };

    fn from(_memory: Memory) -> RecordError {
        RecordError::Memory
    }
}
