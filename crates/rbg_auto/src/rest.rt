//! What comes after a part of the rules, and what then comes before the part.
ghost use Rattle.std.specs.Prelude.{◌≡◌, IfOk};
ghost use Rattle.rbg_auto.specs.internal.Trees.{IsBefore, IsAgain};

use crate::tree::push_first;
use crate::union::union;
use rbg_base::{Memory, Position};
use rbg_rules::Rule;
use std::alloc::Global;

/// What may come directly after a part of the rules, and whether its words may end there.
#[derive(Drop)]
pub(crate) struct Rest {
    pub positions: Vec<Position>,
    pub may_end: bool,
}

/// What comes before a part, if the rest comes after it.
pub(crate) fn before(alloc: Global, part: &Rule, rest: &Rest) -> Result<Rest, Memory>
    ensures { IfOk result (λ before.
        IsBefore part.now rest.now.positions.items rest.now.may_end before.positions.items
        before.may_end) }
{
    let mut first = Vec::new(alloc);
    if push_first(part, &mut first)? {
        return Ok(Rest {
            positions: union(alloc, first.as_slice(), rest.positions.as_slice())?,
            may_end: rest.may_end,
        });
    }
    Ok(Rest {
        positions: first,
        may_end: false,
    })
}

/// What comes after each turn of a star of the part, if the rest comes after the star: the part again, or the rest.
pub(crate) fn again(alloc: Global, part: &Rule, rest: &Rest) -> Result<Rest, Memory>
    ensures positions { IfOk result (λ again.
        IsAgain part.now rest.now.positions.items again.positions.items) }
    ensures may_end { IfOk result (λ again. again.may_end ≡ rest.now.may_end) }
{
    let mut first = Vec::new(alloc);
    let _ = push_first(part, &mut first)?;
    Ok(Rest {
        positions: union(alloc, first.as_slice(), rest.positions.as_slice())?,
        may_end: rest.may_end,
    })
}
