//! Where the positions of a node's list lead from there.
ghost use Rattle.std.specs.Prelude.{IfOk};
ghost use Rattle.rbg_shifts.specs.internal.Branches.{AreBranches};

use crate::ground::Ground;
use rbg_auto::at_or;
use rbg_base::{Direction, Memory, Position};
use std::alloc::Global;

/// A position of a list, its direction if it is a shift, and the node after it.
#[derive(Clone, Copy, Drop)]
pub(crate) struct Branch {
    pub position: Position,
    pub direction: Option<Direction>,
    pub after: usize,
}

/// The branches of positions, each with the node after it out of those of all positions.
pub(crate) fn branches_of(
    alloc: Global,
    ground: &Ground<'_>,
    positions: &[Position],
    afters: &[usize],
) -> Result<Vec<Branch>, Memory>
    ensures { IfOk result (λ branches. AreBranches ground.now.rules afters.now positions.now branches.items) }
{
    let mut branches = Vec::with_capacity(alloc, positions.len())?;
    for position in positions {
        branches.push(Branch {
            position: *position,
            direction: ground.direction(*position),
            after: at_or(afters, *position, 0),
        })?;
    }
    Ok(branches)
}
