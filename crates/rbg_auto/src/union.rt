//! The union of two lists in increasing order.
ghost use Rattle.std.specs.Prelude.{IfOk};
ghost use Rattle.rbg_auto.specs.internal.Orders.{Joins};

use rbg_base::{Memory, Position};
use std::alloc::Global;

/// The positions of both lists in increasing order, each once.
pub(crate) fn union(
    alloc: Global,
    left: &[Position],
    right: &[Position],
) -> Result<Vec<Position>, Memory>
    ensures { IfOk result (λ all. Joins left.now right.now all.items) }
{
    let mut all = Vec::new(alloc);
    let mut in_left = 0;
    let mut in_right = 0;
    while in_left < left.len() && in_right < right.len() {
        let x = left[in_left];
        let y = right[in_right];
        if x < y {
            all.push(x)?;
            in_left += 1;
        } else if y < x {
            all.push(y)?;
            in_right += 1;
        } else {
            all.push(x)?;
            in_left += 1;
            in_right += 1;
        }
    }
    all.extend_from_slice(&left[in_left..])?;
    all.extend_from_slice(&right[in_right..])?;
    Ok(all)
}
