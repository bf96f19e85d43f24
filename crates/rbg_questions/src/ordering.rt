//! Moves that were gathered are written in their order.
ghost use Rattle.std.specs.Prelude.{◌≡◌, ◌≢◌, AllPairs, IfOk, OnErr, map};
ghost use Rattle.rbg_questions.specs.internal.Ordering.{IsInOrder, WritesInOrder};

use crate::answer_writer::write_moves;
use rbg_base::{Memory, MoveList, Pair};
use std::alloc::Global;

/// Appends the lines of the moves of a list, in their order: pair by pair, by vertex and then by position. On an error the
/// bytes are unchanged.
pub(crate) fn write_in_order(
    alloc: Global,
    moves: &MoveList,
    cut: bool,
    out: &mut Vec<u8>,
) -> Result<(), Memory>
    requires { AllPairs (λ a b. a ≢ b) moves.now }
    ensures written { IfOk result (λ _. WritesInOrder moves.now cut out.old.items out.new.items) }
    ensures kept { OnErr result (out.new.items ≡ out.old.items) }
{
    let ordered = in_order(alloc, moves)?;
    write_moves(ordered.as_slice(), cut, out)?;
    Ok(())
}

/// The moves of a list, in order.
pub(crate) fn in_order(alloc: Global, moves: &MoveList) -> Result<Vec<&[Pair]>, Memory>
    requires { AllPairs (λ a b. a ≢ b) moves.now }
    ensures { IfOk result (λ lent. IsInOrder moves.now (map (λ m. m.now) lent.items)) }
{
    let mut lent = lent_moves(alloc, moves)?;
    lent.sort_unstable();
    Ok(lent)
}

/// The moves of a list, each lent.
fn lent_moves(alloc: Global, moves: &MoveList) -> Result<Vec<&[Pair]>, Memory>
    ensures { IfOk result (λ lent. map (λ m. m.now) lent.items ≡ moves.now) }
{
    let mut lent = Vec::with_capacity(alloc, moves.len())?;
    for index in 0..moves.len() {
        lent.push(moves.get(index))?;
    }
    Ok(lent)
}
