//! Calls that tell of a state. None of them changes it.
ghost use Rattle.std.specs.Prelude.{◌≡◌, length, take};
ghost use Rattle.rbg_questions.specs.Keys.{key_of};
ghost use Rattle.rbg_questions.specs.Packing.{packed_of};
ghost use Rattle.rbg_c.specs.Calls.{Tells};
ghost use Rattle.rbg_c.specs.Filling.{Fetches, FetchesMade};

use crate::filling::{fill, fill_packed, fill_scores, fill_values};
use crate::handle::Handle;
use crate::results::{EMPTY, OK};
use std::alloc::Global;

/// `rbg_player`: the player to move; 0 is the keeper.
#[unsafe(no_mangle)]
pub extern "C" fn rbg_player(alloc: Global, state: &mut Handle, player: &mut u32) -> u32
    ensures { Tells (λ told. player.new ≡ told.place.state.player) state.old.value
        state.new.value result }
{
    let Some(held) = state.take(alloc) else {
        return EMPTY;
    };
    *player = u32::from(held.player());
    state.put(held);
    OK
}

/// `rbg_moves_made`: how many moves can be undone.
#[unsafe(no_mangle)]
pub extern "C" fn rbg_moves_made(alloc: Global, state: &mut Handle, made: &mut u64) -> u32
    ensures { Tells (λ told. made.new ≡ length told.before) state.old.value
        state.new.value result }
{
    let Some(held) = state.take(alloc) else {
        return EMPTY;
    };
    *made = held.moves_made() as u64;
    state.put(held);
    OK
}

/// `rbg_key`: the key of the place.
#[unsafe(no_mangle)]
pub extern "C" fn rbg_key(alloc: Global, state: &mut Handle, key: &mut u64) -> u32
    ensures { Tells (λ told. key.new ≡ key_of told.place) state.old.value
        state.new.value result }
{
    let Some(held) = state.take(alloc) else {
        return EMPTY;
    };
    *key = held.key();
    state.put(held);
    OK
}

/// `rbg_board`: the piece on each vertex.
#[unsafe(no_mangle)]
pub extern "C" fn rbg_board(
    alloc: Global,
    state: &mut Handle,
    pieces: &mut [u16],
    needed: &mut u64,
) -> u32
    ensures { Fetches (λ told. told.place.state.pieces) state.old.value state.new.value
        pieces.old pieces.new needed.new result }
{
    let Some(held) = state.take(alloc) else {
        return EMPTY;
    };
    let result = fill(held.pieces(), pieces, needed);
    state.put(held);
    result
}

/// `rbg_values`: what each variable holds.
#[unsafe(no_mangle)]
pub extern "C" fn rbg_values(
    alloc: Global,
    state: &mut Handle,
    values: &mut [u32],
    needed: &mut u64,
) -> u32
    ensures { Fetches (λ told. told.place.state.values) state.old.value state.new.value
        values.old values.new needed.new result }
{
    let Some(held) = state.take(alloc) else {
        return EMPTY;
    };
    let result = fill_values(&held, values, needed);
    state.put(held);
    result
}

/// `rbg_scores`: what each player has scored.
#[unsafe(no_mangle)]
pub extern "C" fn rbg_scores(
    alloc: Global,
    state: &mut Handle,
    scores: &mut [u64],
    needed: &mut u64,
) -> u32
    ensures { Fetches (λ told. take (length told.game.players) told.place.state.values)
        state.old.value state.new.value scores.old scores.new needed.new result }
{
    let Some(held) = state.take(alloc) else {
        return EMPTY;
    };
    let result = fill_scores(&held, scores, needed);
    state.put(held);
    result
}

/// `rbg_pack`: the bytes of the place.
#[unsafe(no_mangle)]
pub extern "C" fn rbg_pack(
    alloc: Global,
    state: &mut Handle,
    bytes: &mut [u8],
    needed: &mut u64,
) -> u32
    ensures { FetchesMade (λ told. packed_of told.place) state.old.value state.new.value
        bytes.old bytes.new needed.new result }
{
    let Some(held) = state.take(alloc) else {
        return EMPTY;
    };
    let result = fill_packed(&held, bytes, needed);
    state.put(held);
    result
}
