//! Why a line of a record is refused.
ghost use Rattle.std.specs.Prelude.{◌≡◌};
ghost use Rattle.rbg_record.specs.internal.Faults.{IsFaultOf, verdict_at};
ghost use Rattle.rbg_record.specs.declared.fault.LineFault.TheVariants.{Form as NotOfForm, Memory as OutOfMemory};

use crate::{Checked, FormError, RecordError};
use rbg_base::Memory;
use rbg_moves::Over as OverLimits;
use thiserror::Error;

/// Why a line of a record is refused.
#[derive(Clone, Copy, Debug, PartialEq, Eq, Error)]
pub enum LineFault {
    /// It is missing, or not of the form.
    #[error("missing or not of the form")]
    Form,
    /// It is of the form, but not right after the lines before it.
    #[error("not right after the lines before it")]
    Bad,
    /// A question about it is above the limits.
    #[error("a question about it is above the limits")]
    Over,
    /// A request for memory failed.
    #[error("out of memory")]
    Memory,
}

/// The first line of a record that is refused, numbered from 1, and why. If memory ran out, it may be any line.
#[derive(Clone, Copy, Debug, PartialEq, Eq, Error)]
#[error("line {line}: {fault}")]
pub struct Misfit {
    pub line: usize,
    pub fault: LineFault,
}

impl Misfit {
    /// The verdict on a record with this misfit.
    pub fn checked(self) -> Result<Checked, RecordError>
        ensures { result ≡ verdict_at self.fault self.line }
    {
        let line = self.line;
        match self.fault {
            LineFault::Form => Err(RecordError::Form { line }),
            LineFault::Bad => Ok(Checked::Bad { line }),
            LineFault::Over => Err(RecordError::Over { line }),
            LineFault::Memory => Err(RecordError::Memory),
        }
    }
}

impl From<FormError> for Misfit {
    ghost from_gives = { λ error misfit. misfit ≡ record { line = error.line; fault = NotOfForm } };

    fn from(error: FormError) -> Misfit {
        Misfit {
            line: error.line,
            fault: LineFault::Form,
        }
    }
}

impl From<Memory> for Misfit {
    ghost from_gives = { λ _ misfit. misfit ≡ record { line = 0; fault = OutOfMemory } };

    fn from(_memory: Memory) -> Misfit {
        Misfit {
            line: 0,
            fault: LineFault::Memory,
        }
    }
}

impl From<OverLimits> for LineFault {
    ghost from_gives = { IsFaultOf };

    fn from(over: OverLimits) -> LineFault {
        match over {
            OverLimits::Deep | OverLimits::Wide => LineFault::Over,
            OverLimits::Memory => LineFault::Memory,
        }
    }
}

impl From<Memory> for LineFault {
    ghost from_gives = { λ _ fault. fault ≡ OutOfMemory };

    fn from(_memory: Memory) -> LineFault {
        LineFault::Memory
    }
}
