//! The call that tells all legal moves at once.
ghost use Rattle.std.specs.Prelude.{◌≡◌, ◌++◌, ℕ, List, IfOk, OnOk, Some, length};
ghost use Rattle.rbg_base.specs.Move.{IsMoveLength};
ghost use Rattle.rbg_c.specs.Filling.{FillsMade};
ghost use Rattle.rbg_c.specs.Listing.{ListsMoves, numbers_of_move, numbers_of_moves, numbers_of_pair};

use crate::filling::fill;
use crate::handle::Handle;
use crate::results::{EMPTY, MEMORY, number};
use crate::state::State;
use rbg_base::{Memory, MoveList, Pair};
use std::alloc::Global;

/// `rbg_moves`: finds the legal moves, and tells all of them as numbers.
#[unsafe(no_mangle)]
pub extern "C" fn rbg_moves(
    alloc: Global,
    state: &mut Handle,
    numbers: &mut [u32],
    needed: &mut u64,
) -> u32
    ensures { ListsMoves state.old.value state.new.value numbers.old numbers.new needed.new
        result }
{
    let Some(mut held) = state.take(alloc) else {
        return EMPTY;
    };
    match held.find_moves() {
        Ok(_count) => {
            let result = fill_moves(alloc, &held, numbers, needed);
            state.put(held);
            result
        }
        Err(refusal) => {
            state.put(held);
            number(refusal)
        }
    }
}

/// Puts the moves that were found into a buffer, if there is room.
fn fill_moves(alloc: Global, state: &State, buffer: &mut [u32], needed: &mut u64) -> u32
    ensures { (moves : List (List (ℕ × ℕ)))
        → state.now.found ≡ Some moves
        → FillsMade (numbers_of_moves moves) buffer.old buffer.new needed.new result }
{
    let Some(moves) = state.moves() else {
        return MEMORY;
    };
    match numbers_of(alloc, moves) {
        Ok(numbers) => fill(numbers.as_slice(), buffer, needed),
        Err(_) => MEMORY,
    }
}

/// Moves as numbers.
fn numbers_of(alloc: Global, moves: &MoveList) -> Result<Vec<u32>, Memory>
    ensures { IfOk result (λ numbers. numbers.items ≡ numbers_of_moves moves.now) }
{
    let mut numbers = Vec::new(alloc);
    for index in 0..moves.len() {
        push_move(moves.get(index), &mut numbers)?;
    }
    Ok(numbers)
}

/// Appends how many pairs a move has, and these.
pub(crate) fn push_move(pairs: &[Pair], numbers: &mut Vec<u32>) -> Result<(), Memory>
    requires { IsMoveLength (length pairs.now) }
    ensures { OnOk result (numbers.new.items ≡ numbers.old.items ++ numbers_of_move pairs.now) }
{
    numbers.push(pairs.len() as u32)?;
    for pair in pairs {
        push_pair(*pair, numbers)?;
    }
    Ok(())
}

/// Appends a vertex and a position.
fn push_pair(pair: Pair, numbers: &mut Vec<u32>) -> Result<(), Memory>
    ensures { OnOk result (numbers.new.items ≡ numbers.old.items ++ numbers_of_pair pair) }
{
    numbers.push(pair.vertex)?;
    numbers.push(pair.position)?;
    Ok(())
}
