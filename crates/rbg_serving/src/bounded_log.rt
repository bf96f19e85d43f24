//! Logs in memory.
ghost use Rattle.std.specs.Prelude.{◌≡◌, []};

use crate::{Log, LogFailure};
use std::alloc::{AllocError, Global};

/// A log in memory. It fails, and takes nothing, where it would hold more than it can.
#[derive(Drop)]
pub struct BoundedLog {
    bytes: Vec<u8>,
    /// How many bytes it can hold.
    room: usize,
}

impl BoundedLog {
    /// An empty log that can hold so many bytes.
    pub fn new(alloc: Global, room: usize) -> BoundedLog
        ensures room { result.room ≡ room }
        ensures empty { ⟦<BoundedLog as Log>⟧.told result [] }
    {
        BoundedLog {
            bytes: Vec::new(alloc),
            room,
        }
    }

    /// The bytes that it holds.
    pub fn bytes(&self) -> &[u8]
        ensures { ⟦<BoundedLog as Log>⟧.told self.now result.now }
    {
        self.bytes.as_slice()
    }
}

impl Log for BoundedLog {
    ghost told = { λ log held. log.bytes.items ≡ held };

    fn append(&mut self, bytes: &[u8]) -> Result<(), LogFailure> {
        if self.room.saturating_sub(self.bytes.len()) < bytes.len() {
            return Err(LogFailure);
        }
        match self.bytes.extend_from_slice(bytes) {
            Ok(()) => Ok(()),
            Err(_) => Err(LogFailure),
        }
    }
}
