//! Calls that find moves, make them and undo them.
ghost use Rattle.std.specs.Prelude.{◌≡◌, [], IfErr, OnErr, OnOk};
ghost use Rattle.rbg_questions.specs.Places.{IsUnfollowed, IsUnlisted, IsUnmade};
ghost use Rattle.rbg_c.specs.States.{FindsMoves, Hears, IsFoundAt, Makes, MakesFound, Undoes};
ghost use Rattle.rbg_c.specs.Stepping.{IsNoMove, IsUnmadeAt};
ghost use Rattle.rbg_c.specs.Calls.{Calls};
ghost use Rattle.rbg_c.specs.Filling.{FetchesSome};
ghost use Rattle.rbg_c.specs.Results.{Refuses, illegal, start};

use crate::handle::Handle;
use crate::pairs::{ModifierPair, fill_found, move_of};
use crate::results::{EMPTY, OK, START, number};
use crate::state::State;
use rbg_questions::QuestionError;
use std::alloc::Global;

/// `rbg_find_moves`: finds the legal moves, and tells how many they are.
#[unsafe(no_mangle)]
pub extern "C" fn rbg_find_moves(alloc: Global, state: &mut Handle, count: &mut u64) -> u32
    ensures { Calls (λ old new. FindsMoves old count.new new)
        (λ old why. Refuses (IsUnlisted old.game old.place) why)
        state.old.value state.new.value result }
{
    let Some(mut held) = state.take(alloc) else {
        return EMPTY;
    };
    match held.find_moves() {
        Ok(many) => {
            state.put(held);
            *count = many as u64;
            OK
        }
        Err(refusal) => {
            state.put(held);
            number(refusal)
        }
    }
}

/// `rbg_make_found`: makes one of the moves that were found.
#[unsafe(no_mangle)]
pub extern "C" fn rbg_make_found(alloc: Global, state: &mut Handle, index: u64) -> u32
    ensures { Calls (λ old new. MakesFound old index new)
        (λ old why. Refuses (IsUnmadeAt old index) why)
        state.old.value state.new.value result }
{
    let Some(mut held) = state.take(alloc) else {
        return EMPTY;
    };
    match held.make_found(index as usize) {
        Ok(()) => {
            state.put(held);
            OK
        }
        Err(refusal) => {
            state.put(held);
            number(refusal)
        }
    }
}

/// `rbg_move`: the pairs of one of the moves that were found.
#[unsafe(no_mangle)]
pub extern "C" fn rbg_move(
    alloc: Global,
    state: &mut Handle,
    index: u64,
    pairs: &mut [ModifierPair],
    needed: &mut u64,
) -> u32
    ensures { FetchesSome (λ told found. IsFoundAt told index found) illegal state.old.value
        state.new.value pairs.old pairs.new needed.new result }
{
    let Some(held) = state.take(alloc) else {
        return EMPTY;
    };
    let result = fill_found(&held, index, pairs, needed);
    state.put(held);
    result
}

/// `rbg_make`: makes the move of these pairs.
#[unsafe(no_mangle)]
pub extern "C" fn rbg_make(alloc: Global, state: &mut Handle, pairs: &[ModifierPair]) -> u32
    ensures { Calls (λ old new. Makes old pairs.now new)
        (λ old why. Refuses (IsNoMove (IsUnmade old.game old.place pairs.now) pairs.now) why)
        state.old.value state.new.value result }
{
    let Some(mut held) = state.take(alloc) else {
        return EMPTY;
    };
    match make(&mut held, pairs) {
        Ok(()) => {
            state.put(held);
            OK
        }
        Err(refusal) => {
            state.put(held);
            number(refusal)
        }
    }
}

/// Makes the move of these pairs.
fn make(state: &mut State, pairs: &[ModifierPair]) -> Result<(), QuestionError>
    ensures made { OnOk result (Makes state.old pairs.now state.new) }
    ensures refused { IfErr result
        (IsNoMove (IsUnmade state.old.game state.old.place pairs.now) pairs.now) }
    ensures kept { OnErr result (state.new ≡ state.old) }
{
    match move_of(pairs) {
        Some(found) => state.make(&found),
        None => Err(QuestionError::Illegal),
    }
}

/// `rbg_hear`: makes the move of these pairs, with no move of the keeper after it.
#[unsafe(no_mangle)]
pub extern "C" fn rbg_hear(alloc: Global, state: &mut Handle, pairs: &[ModifierPair]) -> u32
    ensures { Calls (λ old new. Hears old pairs.now new)
        (λ old why. Refuses (IsNoMove (IsUnfollowed old.game old.place pairs.now) pairs.now)
        why)
        state.old.value state.new.value result }
{
    let Some(mut held) = state.take(alloc) else {
        return EMPTY;
    };
    match hear(&mut held, pairs) {
        Ok(()) => {
            state.put(held);
            OK
        }
        Err(refusal) => {
            state.put(held);
            number(refusal)
        }
    }
}

/// Makes the move of these pairs, with no move of the keeper after it.
fn hear(state: &mut State, pairs: &[ModifierPair]) -> Result<(), QuestionError>
    ensures heard { OnOk result (Hears state.old pairs.now state.new) }
    ensures refused { IfErr result
        (IsNoMove (IsUnfollowed state.old.game state.old.place pairs.now) pairs.now) }
    ensures kept { OnErr result (state.new ≡ state.old) }
{
    match move_of(pairs) {
        Some(found) => state.hear(&found),
        None => Err(QuestionError::Illegal),
    }
}

/// `rbg_undo`: undoes the last move of a player.
#[unsafe(no_mangle)]
pub extern "C" fn rbg_undo(alloc: Global, state: &mut Handle) -> u32
    ensures { Calls Undoes (λ old why. (old.before ≡ []) × (why ≡ start))
        state.old.value state.new.value result }
{
    let Some(mut held) = state.take(alloc) else {
        return EMPTY;
    };
    if held.undo() {
        state.put(held);
        return OK;
    }
    state.put(held);
    START
}
