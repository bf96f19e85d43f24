//! Lines over memory.
ghost use Rattle.std.specs.Prelude.{◌≡◌, ◌<◌, ◌≤◌, ◌+◌, ◌^◌, [], IfOk, vec_len, vec_capacity};
ghost use Rattle.rbg_serving.specs.Told.{Told, nothing_told};

use crate::Line;
use crate::give::{Give, Take};
use rbg_base::Memory;
use std::alloc::Global;

mod calls;

/// A line over memory.
#[derive(Drop)]
pub struct MemoryLine {
    gives: Vec<Give>,
    /// How many of `gives` were given whole.
    whole: usize,
    /// How many bytes of the next one were given.
    offset: usize,
    takes: Vec<Take>,
    /// How many of `takes` were used.
    puts: usize,
    taken: Vec<u8>,
    room: usize,
    failures: u64,
    ghost countable: { vec_len gives + vec_len takes < 2 ^ 64 },
    ghost whole_gives: { whole ≤ vec_len gives },
    ghost used_takes: { puts ≤ vec_len takes },
    ghost counted: { failures ≤ whole + puts },
    ghost fits: { vec_len taken ≤ room },
    ghost reserved: { room ≤ vec_capacity taken },
}

impl MemoryLine {
    /// A line that gives one of `gives` at each poll, and then nothing. It takes what one of `takes` says at each put,
    /// and then everything, but no more than `room` bytes in all.
    pub fn new(
        alloc: Global,
        gives: Vec<Give>,
        takes: Vec<Take>,
        room: usize,
    ) -> Result<MemoryLine, Memory>
        ensures gives { IfOk result (λ line. line.gives ≡ gives) }
        ensures given { IfOk result (λ line. (line.whole ≡ 0) × (line.offset ≡ 0)) }
        ensures takes { IfOk result (λ line. line.takes ≡ takes) }
        ensures taken { IfOk result (λ line. (line.puts ≡ 0) × (line.taken.items ≡ [])) }
        ensures room { IfOk result (λ line. line.room ≡ room) }
        ensures failures { IfOk result (λ line. line.failures ≡ 0) }
        ensures told { IfOk result (λ line. ⟦<MemoryLine as Line>⟧.told line nothing_told) }
    {
        if gives.len().checked_add(takes.len()).is_none() {
            return Err(Memory);
        }
        Ok(MemoryLine {
            gives,
            whole: 0,
            offset: 0,
            takes,
            puts: 0,
            taken: Vec::with_capacity(alloc, room)?,
            room,
            failures: 0,
        })
    }

    /// The bytes that the line has taken.
    pub fn took(&self) -> &[u8]
        ensures { (so_far : Told) → ⟦<MemoryLine as Line>⟧.told self.now so_far
            → result.now ≡ so_far.taken }
    {
        self.taken.as_slice()
    }
}
