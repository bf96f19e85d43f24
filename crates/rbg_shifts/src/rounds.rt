//! Rounds over all nodes and vertices, until nothing is missing.
ghost use Rattle.std.specs.Prelude.{◌≡◌, ◌<◌, length, false, IfOk, OnOk, IsTrue};
ghost use Rattle.rbg_rules.specs.Meaning.{IsGame};
ghost use Rattle.rbg_shifts.specs.internal.Interned.{AreListsOf};
ghost use Rattle.rbg_shifts.specs.internal.Tables.{IsSoundTable, IsRightAt, IsRightSoFar, StaysClosed, AreClosedAt, AreAllClosed, LeadsOneWay, IsFilled, FillsRightly, AreFilled, AreFilledSoFar};

use crate::closing::is_closed;
use crate::filling::{fill_again, fill_in_order, is_marked, repeats};
use crate::ground::Ground;
use crate::lists::Lists;
use crate::table::Table;
use rbg_base::Memory;
use std::alloc::{AllocError, Global};

/// Fills the entries of a node in which anything is missing. Returns whether anything was.
fn mend(table: &mut Table, lists: &Lists, ground: &Ground<'_>, node: usize) -> Result<bool, Memory>
    requires { IsRightAt ground.now lists.now table.old node }
    ensures fills { OnOk result (FillsRightly ground.now lists.now table.old table.new node) }
    ensures closed { IfOk result (λ missing. missing ≡ false
        → StaysClosed ground.now lists.now table.old table.new node) }
{
    if is_closed(table, lists, ground, node) {
        return Ok(false);
    }
    fill_again(table, lists, ground, node)?;
    Ok(true)
}

/// Mends the entries of all nodes, those that come late in the rules first. Returns whether anything was missing.
fn round(table: &mut Table, lists: &Lists, ground: &Ground<'_>) -> Result<bool, Memory>
    requires right { IsRightSoFar ground.now lists.now table.old }
    ensures sound { OnOk result (IsSoundTable ground.now lists.now table.new) }
    ensures closed { IfOk result (λ missing. missing ≡ false → AreAllClosed ground.now lists.now table.new) }
{
    let nodes = lists.interner.nodes.len();
    let mut missing = false;
    for done in 0..nodes {
        if mend(table, lists, ground, nodes - 1 - done)? {
            missing = true;
        }
    }
    Ok(missing)
}

/// Mends a node if it isn't filled. Returns whether anything was missing.
fn mend_other(
    table: &mut Table,
    lists: &Lists,
    ground: &Ground<'_>,
    filled: &[bool],
    node: usize,
) -> Result<bool, Memory>
    requires so_far { AreFilledSoFar ground.now lists.now table.old filled.now }
    requires node { node < length lists.now.interner.nodes.items }
    ensures { OnOk result (AreFilled ground.now lists.now table.new filled.now) }
{
    if is_marked(filled, node) {
        return Ok(false);
    }
    let missing = mend(table, lists, ground, node)?;
    Ok(missing)
}

/// Mends the nodes that aren't filled. Returns whether anything was missing.
fn mend_others(
    table: &mut Table,
    lists: &Lists,
    ground: &Ground<'_>,
    filled: &[bool],
) -> Result<bool, Memory>
    requires { AreFilledSoFar ground.now lists.now table.old filled.now }
    ensures { OnOk result (AreFilled ground.now lists.now table.new filled.now) }
{
    let nodes = lists.interner.nodes.len();
    let mut missing = false;
    for done in 0..nodes {
        let more = mend_other(table, lists, ground, filled, nodes - 1 - done)?;
        missing = missing || more;
    }
    Ok(missing)
}

/// Mends the nodes that aren't filled, until nothing is missing in them.
fn mend_until_still(
    table: &mut Table,
    lists: &Lists,
    ground: &Ground<'_>,
    filled: &[bool],
) -> Result<(), Memory>
    requires { AreFilledSoFar ground.now lists.now table.old filled.now }
    ensures { OnOk result (AreFilled ground.now lists.now table.new filled.now) }
{
    for _ in 0..u64::MAX {
        if !mend_others(table, lists, ground, filled)? {
            return Ok(());
        }
    }
    Ok(())
}

/// Whether shifts lead from a node to no later vertex of its own, or to no earlier one.
fn leads_one_way(lists: &Lists, ground: &Ground<'_>, node: usize) -> bool
    ensures { IsTrue result → LeadsOneWay ground.now lists.now node }
{
    !repeats(lists, ground, node, true) || !repeats(lists, ground, node, false)
}

/// Whether nothing is missing in a node. A filled node is checked only if shifts lead from it to itself at both earlier
/// and later vertices.
fn is_done(table: &Table, lists: &Lists, ground: &Ground<'_>, filled: &[bool], node: usize) -> bool
    requires filled { AreFilled ground.now lists.now table.now filled.now }
    ensures { IsTrue result → AreClosedAt ground.now lists.now table.now node }
{
    (is_marked(filled, node) && leads_one_way(lists, ground, node))
        || is_closed(table, lists, ground, node)
}

/// Whether nothing is missing.
fn are_done(table: &Table, lists: &Lists, ground: &Ground<'_>, filled: &[bool]) -> bool
    requires filled { AreFilled ground.now lists.now table.now filled.now }
    ensures { IsTrue result → AreAllClosed ground.now lists.now table.now }
{
    for node in 0..lists.interner.nodes.len() {
        if !is_done(table, lists, ground, filled, node) {
            return false;
        }
    }
    true
}

/// A table of the nodes with nothing recorded.
fn blank(alloc: Global, lists: &Lists, ground: &Ground<'_>) -> Result<Table, Memory>
    ensures { IfOk result (IsSoundTable ground.now lists.now) }
{
    let vertices = ground.vertices();
    let nodes = lists.interner.nodes.len();
    let Some(places) = nodes.checked_mul(vertices) else {
        return Err(AllocError);
    };
    let table = Table::new(alloc, nodes, vertices, places)?;
    Ok(table)
}

/// The table of all leaps.
pub(crate) fn fill(alloc: Global, lists: &Lists, ground: &Ground<'_>) -> Result<Table, Memory>
    requires lawful { IsGame ground.now }
    requires lists { AreListsOf ground.now.rules lists.now }
    ensures { IfOk result (IsFilled ground.now lists.now) }
{
    let mut table = blank(alloc, lists, ground)?;
    let filled = fill_in_order(alloc, &mut table, lists, ground)?;
    mend_until_still(&mut table, lists, ground, &filled)?;
    if are_done(&table, lists, ground, &filled) {
        return Ok(table);
    }
    // (each round but the last one adds to what is recorded, so there are few)
    for _ in 0..u64::MAX {
        if !round(&mut table, lists, ground)? {
            return Ok(table);
        }
    }
    Err(AllocError)
}
