//! Calls that play on by chance.
ghost use Rattle.std.specs.Prelude.{◌≡◌, ◌↔◌, IsTrue, Some};
ghost use Rattle.rbg_questions.specs.Limits.{IsCount};
ghost use Rattle.rbg_c.specs.Playouts.{HandsOut, PlaysCopy, PlaysOut, Samples};

use crate::filling::fill;
use crate::handle::Handle;
use crate::opening::keep;
use crate::playouts::{play_rows, played_on, sampled_on};
use crate::results::{EMPTY, OK, RANGE, SMALL, number};
use crate::state::State;
use rbg_questions::{Draw, MAX_COUNT};
use std::alloc::Global;

/// `rbg_playouts`: plays so many matches by chance, and tells how they ended.
#[unsafe(no_mangle)]
pub extern "C" fn rbg_playouts(
    alloc: Global,
    state: &mut Handle,
    seed: u64,
    count: u64,
    rows: &mut [u64],
    needed: &mut u64,
) -> u32
    ensures { PlaysOut count state.old.value state.new.value rows.old rows.new needed.new
        result }
{
    if !is_count(count) {
        return RANGE;
    }
    let Some(mut held) = state.take(alloc) else {
        return EMPTY;
    };
    match play_rows(alloc, &mut held, Draw { seed, count }) {
        Ok(found) => {
            state.put(held);
            fill(found.as_slice(), rows, needed)
        }
        Err(refusal) => {
            state.put(held);
            number(refusal)
        }
    }
}

/// Whether so many matches are played by one call.
fn is_count(count: u64) -> bool
    ensures { IsTrue result ↔ IsCount count }
{
    0 < count && count <= MAX_COUNT
}

/// `rbg_play_on`: a copy on which moves are made by chance.
#[unsafe(no_mangle)]
pub extern "C" fn rbg_play_on(
    alloc: Global,
    from: &mut Handle,
    to: &mut Handle,
    seed: u64,
    most: u64,
    made: &mut u64,
) -> u32
    ensures from { from.new.value ≡ from.old.value }
    ensures to { PlaysCopy from.old.value most to.old.value to.new.value made.new result }
{
    match from.take(alloc) {
        None => EMPTY,
        Some(state) => {
            let draw = Draw { seed, count: most };
            let result = play_copy(alloc, &state, to, draw, made);
            from.put(state);
            result
        }
    }
}

/// Keeps a copy on which moves are made by chance.
fn play_copy(alloc: Global, state: &State, to: &mut Handle, draw: Draw, made: &mut u64) -> u32
    ensures { PlaysCopy (Some state.now) draw.count to.old.value to.new.value made.new result }
{
    match played_on(state, draw) {
        Ok(copy) => {
            *made = copy.moves_made() as u64;
            keep(alloc, copy, to)
        }
        Err(refusal) => number(refusal),
    }
}

/// `rbg_sample`: a copy on which moves are made by chance, and these moves.
#[unsafe(no_mangle)]
pub extern "C" fn rbg_sample(
    alloc: Global,
    from: &mut Handle,
    to: &mut Handle,
    seed: u64,
    most: u64,
    numbers: &mut [u32],
    needed: &mut u64,
) -> u32
    ensures from { from.new.value ≡ from.old.value }
    ensures to { Samples from.old.value most to.old.value to.new.value numbers.old numbers.new
        needed.new result }
{
    match from.take(alloc) {
        None => EMPTY,
        Some(state) => {
            let mut moves = Vec::new(alloc);
            let sampled = sampled_on(&state, Draw { seed, count: most }, &mut moves);
            from.put(state);
            match sampled {
                Ok(copy) => hand_out(copy, moves, to, numbers, needed),
                Err(refusal) => number(refusal),
            }
        }
    }
}

/// Keeps a state, and puts the numbers of its moves into a buffer, if there is room.
fn hand_out(
    state: State,
    numbers: Vec<u32>,
    to: &mut Handle,
    buffer: &mut [u32],
    needed: &mut u64,
) -> u32
    ensures { HandsOut state numbers.items to.old.value to.new.value buffer.old buffer.new
        needed.new result }
{
    let count = numbers.len();
    if buffer.len() < count {
        *needed = count as u64;
        return SMALL;
    }
    let kept = keep(*numbers.allocator(), state, to);
    if kept != OK {
        return kept;
    }
    fill(numbers.as_slice(), buffer, needed)
}
