//! Targets that are found and added in a list.
ghost use Rattle.std.specs.Prelude.{◌≡◌, ℕ, ◌/◌, ◌<◌, ◌≤◌, length, IfSome, OnOk};
ghost use Rattle.rbg_shifts.specs.Asked.{IsEndOf};
ghost use Rattle.rbg_shifts.specs.internal.Tables.{target_at, Keeps, AddsTarget, AddsAll};

use crate::target::Target;
use rbg_base::{Memory, Position, Vertex};

/// No likely place: no list is this long.
pub(crate) const NOWHERE: usize = usize::MAX;

/// The target that has this vertex alone.
#[inline(always)]
pub(crate) fn unit(position: Position, vertex: Vertex) -> Target
    ensures has { IsEndOf result position vertex }
    ensures position { (p u : ℕ) → IsEndOf result p u → p ≡ position }
    ensures vertex { (p u : ℕ) → IsEndOf result p u → u ≡ vertex }
    ensures column { result.column ≡ vertex / 64 }
{
    Target {
        position,
        column: vertex / 64,
        word: 1 << (vertex % 64),
    }
}

/// The index of a target between two places that has the position and the column of another one. A likely index is
/// tried first. Targets after neighbours are nearly in the same order, so the next target is mostly after the last one.
#[inline(always)]
pub(crate) fn find(
    targets: &[Target],
    from: usize,
    to: usize,
    target: Target,
    likely: usize,
) -> Option<usize>
    requires { to ≤ length targets.now }
    ensures beyond { IfSome result (λ i. from ≤ i) }
    ensures before { IfSome result (λ i. i < to) }
    ensures position { IfSome result (λ i. (target_at targets.now i).position ≡ target.position) }
    ensures column { IfSome result (λ i. (target_at targets.now i).column ≡ target.column) }
{
    if likely < to
        && from <= likely
        && targets[likely].position == target.position
        && targets[likely].column == target.column
    {
        return Some(likely);
    }
    for index in from..to {
        if targets[index].position == target.position && targets[index].column == target.column {
            return Some(index);
        }
    }
    None
}

/// Adds a target to those from a place on. Its word is joined with that of the target with the same position and
/// column, if there is one. `likely` is where that one is likely to be, and then where the next one is.
#[inline(always)]
pub(crate) fn add(
    targets: &mut Vec<Target>,
    start: usize,
    target: Target,
    likely: &mut usize,
) -> Result<(), Memory>
    requires { start ≤ length targets.old.items }
    ensures keeps { Keeps start targets.old.items targets.new.items }
    ensures adds { OnOk result (AddsTarget start targets.old.items targets.new.items target) }
{
    let Some(index) = find(targets, start, targets.len(), target, *likely) else {
        targets.push(target)?;
        return Ok(());
    };
    *likely = index + 1;
    let word = targets[index].word | target.word;
    targets[index] = Target {
        position: target.position,
        column: target.column,
        word,
    };
    Ok(())
}

/// Adds the targets between two places to those from a place on, which are all after them.
#[inline(always)]
pub(crate) fn add_all(
    targets: &mut Vec<Target>,
    start: usize,
    from: usize,
    to: usize,
) -> Result<(), Memory>
    requires start { start ≤ length targets.old.items }
    requires before { to ≤ start }
    ensures keeps { Keeps start targets.old.items targets.new.items }
    ensures adds { OnOk result (AddsAll start targets.old.items targets.new.items from to) }
{
    let mut likely = NOWHERE;
    for index in from..to {
        let target = targets[index];
        add(targets, start, target, &mut likely)?;
    }
    Ok(())
}
