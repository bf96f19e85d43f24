//! Whether anything is missing in a table.
ghost use Rattle.std.specs.Prelude.{◌≡◌, ℕ, ◌+◌, ◌<◌, length, true, IsTrue};
ghost use Rattle.rbg_shifts.specs.Asked.{IsEndOf};
ghost use Rattle.rbg_shifts.specs.Entries.{end_of, IsWithin};
ghost use Rattle.rbg_shifts.specs.internal.Tables.{entry_at, HasEndAt, IsUnder, RecordsStepAt, RecordsStepEverywhere, AreClosedAt, IsLaidOut};

use crate::adding::{NOWHERE, find, unit};
use crate::ground::Ground;
use crate::lists::Lists;
use crate::setting::Setting;
use crate::table::{Entry, Table};
use crate::target::Target;
use rbg_base::{Position, Vertex};

/// Whether an entry has all vertices of a target. `likely` is the index of the target that is likely to have them, and
/// then that for the next one.
fn tells(table: &Table, entry: Entry, target: Target, likely: &mut usize) -> bool
    requires { IsWithin (length table.now.targets.items) entry }
    ensures { IsTrue result → (j u : ℕ) → IsEndOf target j u → HasEndAt table.now entry j u }
{
    let start = entry.start as usize;
    match find(
        &table.targets,
        start,
        start + entry.many as usize,
        target,
        *likely,
    ) {
        Some(index) => {
            *likely = index + 1;
            table.targets[index].word | target.word == table.targets[index].word
        }
        None => false,
    }
}

/// Whether two entries share their targets.
fn have_same_targets(entry: Entry, other: Entry) -> bool
    ensures start { IsTrue result → entry.start ≡ other.start }
    ensures many { IsTrue result → entry.many ≡ other.many }
{
    entry.start == other.start && entry.many == other.many
}

/// Whether an entry has all targets of another one.
fn has_targets(table: &Table, entry: Entry, other: Entry) -> bool
    requires within { IsWithin (length table.now.targets.items) entry }
    requires other { IsWithin (length table.now.targets.items) other }
    ensures { IsTrue result → (j u : ℕ) → HasEndAt table.now other j u → HasEndAt table.now entry j u }
{
    if have_same_targets(entry, other) {
        return true;
    }
    let start = other.start as usize;
    let mut likely = NOWHERE;
    for index in start..start + other.many as usize {
        if !tells(table, entry, table.targets[index], &mut likely) {
            return false;
        }
    }
    true
}

/// Whether an entry records all that another one records.
fn tells_all(table: &Table, entry: Entry, other: Entry) -> bool
    requires within { IsWithin (length table.now.targets.items) entry }
    requires other { IsWithin (length table.now.targets.items) other }
    ensures { IsTrue result → IsUnder table.now other entry.start (end_of entry) entry.ends }
{
    if other.ends && !entry.ends {
        return false;
    }
    has_targets(table, entry, other)
}

/// Whether an entry records what one step by a position leads to.
#[inline(always)]
fn is_told(
    table: &Table,
    setting: &Setting,
    entry: Entry,
    vertex: Vertex,
    position: Position,
) -> bool
    requires laid_out { IsLaidOut setting.now.ground.now setting.now.lists.now table.now }
    requires within { IsWithin (length table.now.targets.items) entry }
    requires vertex { vertex < length setting.now.ground.now.board.first }
    ensures { IsTrue result → RecordsStepAt setting.now.ground.now setting.now.lists.now table.now entry vertex position }
{
    if !setting.ground.is_shift(position) {
        let mut likely = NOWHERE;
        return tells(table, entry, unit(position, vertex), &mut likely);
    }
    match setting.ground.to(vertex, position) {
        Some(to) => tells_all(table, entry, table.entry(setting.lists.after(position), to)),
        None => true,
    }
}

/// Whether the entries of a node record what one step by a position leads to, at each vertex.
fn records_step_everywhere(
    table: &Table,
    lists: &Lists,
    ground: &Ground<'_>,
    node: usize,
    position: Position,
) -> bool
    requires laid_out { IsLaidOut ground.now lists.now table.now }
    ensures { IsTrue result → RecordsStepEverywhere ground.now lists.now table.now node position }
{
    let setting = Setting { lists, ground };
    for index in 0..ground.vertices() {
        let vertex = index as Vertex;
        let entry = table.entry(node, vertex);
        if !is_told(table, &setting, entry, vertex, position) {
            return false;
        }
    }
    true
}

/// Whether a word may end by all entries of a node.
fn all_end(table: &Table, ground: &Ground<'_>, node: usize) -> bool
    ensures { IsTrue result → (v : ℕ) → v < length ground.now.board.first
        → IsTrue (entry_at table.now node v).ends }
{
    for index in 0..ground.vertices() {
        if !table.entry(node, index as Vertex).ends {
            return false;
        }
    }
    true
}

/// Whether nothing is missing in the entries of a node.
pub(crate) fn is_closed(table: &Table, lists: &Lists, ground: &Ground<'_>, node: usize) -> bool
    requires laid_out { IsLaidOut ground.now lists.now table.now }
    ensures { IsTrue result → AreClosedAt ground.now lists.now table.now node }
{
    if lists.interner.may_end(node) && !all_end(table, ground, node) {
        return false;
    }
    for listed in lists.interner.list(node) {
        if !records_step_everywhere(table, lists, ground, node, *listed) {
            return false;
        }
    }
    true
}
