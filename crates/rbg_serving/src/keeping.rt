//! Logs.
ghost use Rattle.std.specs.Prelude.{ℕ, List, OnOk, OnErr};
ghost use Rattle.rbg_serving.specs.Logs.{Appends, AppendsFront};

use rbg_base::Memory;
use thiserror::Error;

/// A log couldn't take what was written to it. Where there is a reason, the log has said it.
#[derive(Clone, Copy, Debug, PartialEq, Eq, Error)]
#[error("the log failed")]
pub struct LogFailure;

/// Why something isn't written to a log.
#[derive(Clone, Copy, Debug, PartialEq, Eq, Error)]
pub enum WriteError {
    /// A request for memory failed.
    #[error("out of memory")]
    Memory,
    /// The log failed.
    #[error("the log failed")]
    Log,
}

impl From<Memory> for WriteError {
    ghost use Rattle.std.specs.Prelude.{◌≡◌};
    ghost use Rattle.rbg_serving.specs.declared.keeping.WriteError.{WriteError};

    ghost from_gives = { λ _ error. error ≡ WriteError.Memory };

    fn from(_memory: Memory) -> WriteError {
        WriteError::Memory
    }
}

impl From<LogFailure> for WriteError {
    ghost use Rattle.std.specs.Prelude.{◌≡◌};
    ghost use Rattle.rbg_serving.specs.declared.keeping.WriteError.{WriteError};

    ghost from_gives = { λ _ error. error ≡ WriteError.Log };

    fn from(_failure: LogFailure) -> WriteError {
        WriteError::Log
    }
}

/// Where the events of a match are written.
pub trait Log: Drop {
    /// Whether these may be all the bytes that the log holds. A log that keeps no record, as one in a file of the system,
    /// may hold any: `λ _ _. Unit {0}`.
    ghost told: { Self → List ℕ → Type 0 };

    /// Appends the bytes, and hands them to whatever keeps them. A log that fails may have taken a front part of them.
    fn append(&mut self, bytes: &[u8]) -> Result<(), LogFailure>
        ensures ok { OnOk result (Appends told self.old self.new bytes.now) }
        ensures err { OnErr result (AppendsFront told self.old self.new bytes.now) };
}

/// Where there is no log, nothing is kept.
impl<W: Log> Log for Option<W> {
    ghost use Rattle.std.specs.Prelude.{IfSome};

    ghost told = { λ log held. IfSome log (λ one. W.told one held) };

    fn append(&mut self, bytes: &[u8]) -> Result<(), LogFailure> {
        match self {
            Some(log) => log.append(bytes),
            None => Ok(()),
        }
    }
}
