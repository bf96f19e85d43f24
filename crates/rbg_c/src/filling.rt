//! Buffers of the caller, and what is put into them.
ghost use Rattle.std.specs.Prelude.{◌≡◌, ◌<◌, ◌≤◌, ◌^◌, ◌++◌, drop, length, take};
ghost use Rattle.rbg_questions.specs.Packing.{packed_of};
ghost use Rattle.rbg_c.specs.Filling.{Fills, FillsMade};

use crate::results::{MEMORY, OK, SMALL};
use crate::state::State;
use rbg_base::Variable;

/// Puts items at the beginning of a buffer, if there is room, and tells how many they are.
pub(crate) fn fill<T: Copy>(items: &[T], buffer: &mut [T], needed: &mut u64) -> u32
    ensures { Fills items.now buffer.old buffer.new needed.new result }
{
    let count = items.len();
    *needed = count as u64;
    if buffer.len() < count {
        return SMALL;
    }
    buffer[..count].copy_from_slice(items);
    OK
}

/// Puts what the variables hold at the beginning of a buffer, if there is room, and tells how many they are.
pub(crate) fn fill_values(state: &State, buffer: &mut [u32], needed: &mut u64) -> u32
    ensures { Fills state.now.place.state.values buffer.old buffer.new needed.new result }
{
    let count = state.variables();
    *needed = count as u64;
    if buffer.len() < count {
        return SMALL;
    }
    copy_values(state, count, buffer);
    OK
}

/// Puts what the variables hold, so many of them, at the beginning of a buffer.
fn copy_values(state: &State, count: usize, buffer: &mut [u32])
    requires many { count ≡ length state.now.place.state.values }
    requires room { count ≤ length buffer.old }
    requires small { count < 2 ^ 16 }
    ensures { buffer.new ≡ state.now.place.state.values
        ++ drop (length state.now.place.state.values) buffer.old }
{
    for index in 0..count {
        buffer[index] = state.value(index as Variable);
    }
}

/// Puts what the players have scored at the beginning of a buffer, if there is room, and tells how many they are.
pub(crate) fn fill_scores(state: &State, buffer: &mut [u64], needed: &mut u64) -> u32
    ensures { Fills (take (length state.now.game.players) state.now.place.state.values)
        buffer.old buffer.new needed.new result }
{
    let scores = state.scores();
    fill(scores.as_slice(), buffer, needed)
}

/// Puts the bytes of the place at the beginning of a buffer, if there is room, and tells how many they are.
pub(crate) fn fill_packed(state: &State, buffer: &mut [u8], needed: &mut u64) -> u32
    ensures { FillsMade (packed_of state.now.place) buffer.old buffer.new needed.new result }
{
    match state.pack() {
        Ok(packed) => fill(packed.as_slice(), buffer, needed),
        Err(_) => MEMORY,
    }
}
