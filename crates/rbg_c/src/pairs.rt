//! Moves as C gives them, and as it gets them.
ghost use Rattle.std.specs.Prelude.{◌≡◌, ◌≤◌, ◌++◌, IfNone, IfSome, drop, length};
ghost use Rattle.rbg_base.specs.Move.{IsMoveLength};
ghost use Rattle.rbg_c.specs.Filling.{Fills, FillsSome};
ghost use Rattle.rbg_c.specs.Results.{illegal};
ghost use Rattle.rbg_c.specs.States.{IsFoundAt};

use crate::results::{ILLEGAL, OK, SMALL};
use crate::state::State;
use rbg_base::{MAX_PAIRS, Move, Pair};
use std::marker::Model;

/// A modifier and the vertex on which it is applied: `rbg_pair` in the header. Contracts see the two numbers.
#[repr(C)]
#[derive(Clone, Copy)]
pub struct ModifierPair {
    /// The vertex on which the modifier is applied.
    pub vertex: u32,
    /// The position of the modifier in the rules.
    pub position: u32,
}

impl Model for ModifierPair {
    ghost use Rattle.std.specs.Prelude.{ℕ};

    ghost Value = { ℕ × ℕ };

    ghost view = { λ p. (p.vertex, p.position) };

    ghost inverse = { λ p. record { vertex = p.0; position = p.1 } };
}

/// The pair of a move.
fn pair_of(pair: ModifierPair) -> Pair
    ensures { result ≡ pair }
{
    Pair {
        vertex: pair.vertex,
        position: pair.position,
    }
}

/// A pair as C gets it.
fn given(pair: Pair) -> ModifierPair
    ensures { result ≡ pair }
{
    ModifierPair {
        vertex: pair.vertex,
        position: pair.position,
    }
}

/// The move of these pairs, if they are 1 to 200.
pub(crate) fn move_of(pairs: &[ModifierPair]) -> Option<Move>
    ensures found { IfSome result (λ found. found ≡ pairs.now) }
    ensures none { IfNone result (¬ IsMoveLength (length pairs.now)) }
{
    if pairs.is_empty() || pairs.len() > MAX_PAIRS {
        return None;
    }
    let mut found = Move::new(pair_of(pairs[0]));
    for index in 1..pairs.len() {
        found.push(pair_of(pairs[index]));
    }
    Some(found)
}

/// Puts the pairs of a move at the beginning of a buffer, if there is room, and tells how many they are.
pub(crate) fn fill_pairs(pairs: &[Pair], buffer: &mut [ModifierPair], needed: &mut u64) -> u32
    ensures { Fills pairs.now buffer.old buffer.new needed.new result }
{
    let count = pairs.len();
    *needed = count as u64;
    if buffer.len() < count {
        return SMALL;
    }
    copy_pairs(pairs, buffer);
    OK
}

/// Puts the pairs of a move at the beginning of a buffer.
fn copy_pairs(pairs: &[Pair], buffer: &mut [ModifierPair])
    requires { length pairs.now ≤ length buffer.old }
    ensures { buffer.new ≡ pairs.now ++ drop (length pairs.now) buffer.old }
{
    for index in 0..pairs.len() {
        buffer[index] = given(pairs[index]);
    }
}

/// Puts the pairs of the move that stands at an index among those that were found into a buffer, if there is one.
pub(crate) fn fill_found(
    state: &State,
    index: u64,
    pairs: &mut [ModifierPair],
    needed: &mut u64,
) -> u32
    ensures { FillsSome (IsFoundAt state.now index) illegal pairs.old pairs.new needed.new
        result }
{
    let Some(moves) = state.moves() else {
        return ILLEGAL;
    };
    if moves.len() as u64 <= index {
        return ILLEGAL;
    }
    fill_pairs(moves.get(index as usize), pairs, needed)
}
