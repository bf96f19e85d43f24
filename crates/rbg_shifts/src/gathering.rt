//! What one step leads to from a node and a vertex, gathered from the entries that are there.
ghost use Rattle.std.specs.Prelude.{◌≡◌, ◌<◌, ◌≤◌, length, All, Contains, IfOk, OnOk, IsTrue};
ghost use Rattle.rbg_shifts.specs.Entries.{IsWithin};
ghost use Rattle.rbg_shifts.specs.internal.Interned.{branches_at, list_at, may_end_at};
ghost use Rattle.rbg_shifts.specs.internal.Branches.{IsBranch};
ghost use Rattle.rbg_shifts.specs.internal.Steps.{EndsBy};
ghost use Rattle.rbg_shifts.specs.internal.Tables.{IsRightSoFar, IsGathered, RecordsStepFrom, IsWholeFrom, KeepsRecorded, Grows};

use crate::adding::unit;
use crate::branches::Branch;
use crate::setting::Setting;
use crate::table::{Spot, Table};
use rbg_base::Memory;

/// Gathers what a step by one position leads to, after the targets before a place. Returns whether a word may end then.
#[inline(always)]
fn gather_one(
    table: &mut Table,
    start: usize,
    setting: &Setting,
    spot: Spot,
    branch: &Branch,
) -> Result<bool, Memory>
    requires right { IsRightSoFar setting.now.ground.now setting.now.lists.now table.old }
    requires start { start ≤ length table.old.targets.items }
    requires within { All (IsWithin start) table.old.entries.items }
    requires vertex { spot.vertex < length setting.now.ground.now.board.first }
    requires branch { IsBranch setting.now.ground.now.rules setting.now.lists.now.afters.items branch.now.position branch.now }
    requires listed { Contains (list_at setting.now.lists.now.interner spot.node) branch.now.position }
    requires gathered { IsGathered setting.now.ground.now setting.now.lists.now table.old start spot.node spot.vertex }
    ensures grows { OnOk result (Grows start table.old table.new) }
    ensures gathered { OnOk result (IsGathered setting.now.ground.now setting.now.lists.now table.new start spot.node spot.vertex) }
    ensures ends { IfOk result (λ ends. IsTrue ends → EndsBy setting.now.ground.now (list_at setting.now.lists.now.interner spot.node) (may_end_at setting.now.lists.now.interner spot.node) spot.vertex) }
    ensures keeps { OnOk result (KeepsRecorded start table.old table.new) }
    ensures told { IfOk result (λ ends. RecordsStepFrom setting.now.ground.now setting.now.lists.now table.new start ends spot.vertex branch.now.position) }
{
    let Some(direction) = branch.direction else {
        table.add(start, unit(branch.position, spot.vertex))?;
        return Ok(false);
    };
    let Some(to) = setting.ground.step(spot.vertex, direction) else {
        return Ok(false);
    };
    let entry = table.entry_there(branch.after, to);
    let from = entry.start as usize;
    let ends = entry.ends;
    let many = entry.many as usize;
    table.add_all(start, from, from + many)?;
    Ok(ends)
}

/// Gathers what one step leads to, by the list of a node, after all targets. Returns whether a word may end at once or
/// then.
#[inline(always)]
pub(crate) fn gather(
    table: &mut Table,
    setting: &Setting,
    spot: Spot,
    list: &[Branch],
    may_end: bool,
) -> Result<bool, Memory>
    requires right { IsRightSoFar setting.now.ground.now setting.now.lists.now table.old }
    requires node { spot.node < length setting.now.lists.now.interner.nodes.items }
    requires list { list.now ≡ branches_at setting.now.lists.now spot.node }
    requires may_end { may_end ≡ may_end_at setting.now.lists.now.interner spot.node }
    requires vertex { spot.vertex < length setting.now.ground.now.board.first }
    ensures grows { OnOk result (Grows (length table.old.targets.items) table.old table.new) }
    ensures gathered { OnOk result (IsGathered setting.now.ground.now setting.now.lists.now table.new (length table.old.targets.items) spot.node spot.vertex) }
    ensures ends { IfOk result (λ ends. IsTrue ends → EndsBy setting.now.ground.now (list_at setting.now.lists.now.interner spot.node) (may_end_at setting.now.lists.now.interner spot.node) spot.vertex) }
    ensures whole { IfOk result (λ ends. IsWholeFrom setting.now.ground.now setting.now.lists.now table.new (length table.old.targets.items) spot.node spot.vertex ends) }
{
    let start = table.targets.len();
    let mut ends = may_end;
    for branch in list {
        let then = gather_one(table, start, setting, spot, branch)?;
        ends = ends || then;
    }
    Ok(ends)
}
