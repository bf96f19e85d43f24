//! A first pass over all nodes, each after those to which its shifts lead.
ghost use Rattle.std.specs.Prelude.{◌≡◌, ◌≢◌, ℕ, ◌<◌, ◌≤◌, length, true, false, Contains, Some, IfOk, OnOk, IfSome, IsTrue, slice_index_or};
ghost use Rattle.rbg_shifts.specs.Entries.{IsWithin};
ghost use Rattle.rbg_shifts.specs.Leaps.{IsShiftAt};
ghost use Rattle.rbg_shifts.specs.internal.Interned.{AreListsOf, branches_at, list_at, may_end_at};
ghost use Rattle.rbg_shifts.specs.internal.Branches.{IsBranch};
ghost use Rattle.rbg_shifts.specs.internal.Steps.{Comes, IsOnly};
ghost use Rattle.rbg_shifts.specs.internal.Tables.{IsSoundEntry, IsRightAt, IsRightSoFar, RecordsStepAt, FillsOne, FillsUpTo, FillsRightly, FillsDownTo, StepsBack, StepsForth, LeadsAway, LeadsBack, LeadsForth, LeadsOneWay, LeadsToMarked, IsMarked, AreClosedAt, AreFilled, AreFilledSoFar};

use crate::adding::unit;
use crate::branches::Branch;
use crate::gathering::gather;
use crate::ground::Ground;
use crate::lists::Lists;
use crate::setting::Setting;
use crate::table::{Entry, Spot, Table};
use rbg_base::{Direction, Memory, Position, Vertex};
use std::alloc::Global;

/// Whether there was memory for what is filled.
type Filled = Result<(), Memory>;

/// A node from which one shift leads on, with what is the same at each vertex.
#[derive(Clone, Copy, Drop)]
struct OnlyShift {
    node: usize,
    branch: Branch,
    direction: Direction,
    may_end: bool,
}

/// Puts what one step leads to into the entry of a node and a vertex.
#[inline(always)]
fn fill_one(
    table: &mut Table,
    setting: &Setting,
    spot: Spot,
    list: &[Branch],
    may_end: bool,
) -> Filled
    requires at { IsRightAt setting.now.ground.now setting.now.lists.now table.old spot.node }
    requires list { list.now ≡ branches_at setting.now.lists.now spot.node }
    requires may_end { may_end ≡ may_end_at setting.now.lists.now.interner spot.node }
    requires vertex { spot.vertex < length setting.now.ground.now.board.first }
    ensures { OnOk result (FillsOne setting.now.ground.now setting.now.lists.now table.old table.new spot.node spot.vertex) }
{
    let start = table.targets.len();
    let ends = gather(table, setting, spot, list, may_end)?;
    table.put(spot.node, spot.vertex, start, ends)?;
    Ok(())
}

/// The entry of a vertex at a node from which one shift leads on, with what is recorded after the shift.
#[inline(always)]
fn entry_after(table: &Table, setting: &Setting, only: &OnlyShift, vertex: Vertex) -> Entry
    requires right { IsRightSoFar setting.now.ground.now setting.now.lists.now table.now }
    requires branch { IsBranch setting.now.ground.now.rules setting.now.lists.now.afters.items only.now.branch.position only.now.branch }
    requires direction { only.now.branch.direction ≡ Some only.now.direction }
    requires may_end { only.now.may_end ≡ may_end_at setting.now.lists.now.interner only.now.node }
    requires vertex { vertex < length setting.now.ground.now.board.first }
    requires listed { Contains (list_at setting.now.lists.now.interner only.now.node) only.now.branch.position }
    ensures within { IsWithin (length table.now.targets.items) result }
    ensures sound { IsSoundEntry setting.now.ground.now (list_at setting.now.lists.now.interner only.now.node) (may_end_at setting.now.lists.now.interner only.now.node) vertex table.now result }
    ensures told { RecordsStepAt setting.now.ground.now setting.now.lists.now table.now result vertex only.now.branch.position }
    ensures ends { IsTrue (may_end_at setting.now.lists.now.interner only.now.node) → IsTrue result.ends }
{
    let Some(to) = setting.ground.step(vertex, only.direction) else {
        return Entry {
            start: 0,
            many: 0,
            ends: only.may_end,
        };
    };
    let beyond = table.entry_there(only.branch.after, to);
    let ends = beyond.ends || only.may_end;
    Entry {
        start: beyond.start,
        many: beyond.many,
        ends,
    }
}

/// The only branch of a node's list. Returns None if there are several, or none.
fn only_of(lists: &Lists, ground: &Ground<'_>, node: usize) -> Option<Branch>
    requires lists { AreListsOf ground.now.rules lists.now }
    requires node { node < length lists.now.interner.nodes.items }
    ensures only { IfSome result (λ b. IsOnly (list_at lists.now.interner node) b.position) }
    ensures branch { IfSome result (λ b. IsBranch ground.now.rules lists.now.afters.items b.position b) }
{
    let list = lists.branches(node);
    if list.len() == 1 { Some(list[0]) } else { None }
}

/// Fills the entries of a node from which one shift leads on: they share the targets after it.
fn share_node(table: &mut Table, lists: &Lists, ground: &Ground<'_>, only: &OnlyShift)
    requires at { IsRightAt ground.now lists.now table.old only.now.node }
    requires only { IsOnly (list_at lists.now.interner only.now.node) only.now.branch.position }
    requires branch { IsBranch ground.now.rules lists.now.afters.items only.now.branch.position only.now.branch }
    requires direction { only.now.branch.direction ≡ Some only.now.direction }
    requires may_end { only.now.may_end ≡ may_end_at lists.now.interner only.now.node }
    ensures { FillsUpTo ground.now lists.now table.old table.new only.now.node (length ground.now.board.first) }
{
    let setting = Setting { lists, ground };
    for index in 0..ground.vertices() {
        let vertex = index as Vertex;
        let entry = entry_after(table, &setting, only, vertex);
        table.share(only.node, vertex, entry);
    }
}

/// Records in the entry of a vertex the only position that comes next at a node.
#[inline(always)]
fn place_one(
    table: &mut Table,
    setting: &Setting,
    spot: Spot,
    position: Position,
    may_end: bool,
) -> Filled
    requires at { IsRightAt setting.now.ground.now setting.now.lists.now table.old spot.node }
    requires vertex { spot.vertex < length setting.now.ground.now.board.first }
    requires only { IsOnly (list_at setting.now.lists.now.interner spot.node) position }
    requires plain { ¬ IsShiftAt setting.now.ground.now.rules position }
    requires may_end { may_end ≡ may_end_at setting.now.lists.now.interner spot.node }
    ensures { OnOk result (FillsOne setting.now.ground.now setting.now.lists.now table.old table.new spot.node spot.vertex) }
{
    let start = table.targets.len();
    table.add(start, unit(position, spot.vertex))?;
    table.put(spot.node, spot.vertex, start, may_end)?;
    Ok(())
}

/// Fills the entries of a node whose list is one position that is no shift.
fn place_node(
    table: &mut Table,
    lists: &Lists,
    ground: &Ground<'_>,
    node: usize,
    position: Position,
) -> Filled
    requires at { IsRightAt ground.now lists.now table.old node }
    requires only { IsOnly (list_at lists.now.interner node) position }
    requires plain { ¬ IsShiftAt ground.now.rules position }
    ensures { OnOk result (FillsUpTo ground.now lists.now table.old table.new node (length ground.now.board.first)) }
{
    let setting = Setting { lists, ground };
    let may_end = lists.interner.may_end(node);
    for index in 0..ground.vertices() {
        let vertex = index as Vertex;
        place_one(table, &setting, Spot { node, vertex }, position, may_end)?;
    }
    Ok(())
}

/// Fills the entries of a node forwards over the vertices.
fn fill_forwards(table: &mut Table, lists: &Lists, ground: &Ground<'_>, node: usize) -> Filled
    requires { IsRightAt ground.now lists.now table.old node }
    ensures { OnOk result (FillsUpTo ground.now lists.now table.old table.new node (length ground.now.board.first)) }
{
    let setting = Setting { lists, ground };
    let list = lists.branches(node);
    let may_end = lists.interner.may_end(node);
    for index in 0..ground.vertices() {
        let vertex = index as Vertex;
        fill_one(table, &setting, Spot { node, vertex }, list, may_end)?;
    }
    Ok(())
}

/// Fills the entries of a node backwards over the vertices. That is enough if shifts lead from it to itself only at
/// later vertices.
fn fill_backwards(table: &mut Table, lists: &Lists, ground: &Ground<'_>, node: usize) -> Filled
    requires { IsRightAt ground.now lists.now table.old node }
    ensures { OnOk result (FillsDownTo ground.now lists.now table.old table.new node (length ground.now.board.first)) }
{
    let setting = Setting { lists, ground };
    let list = lists.branches(node);
    let may_end = lists.interner.may_end(node);
    let vertices = ground.vertices();
    for index in 0..vertices {
        let vertex = (vertices - 1 - index) as Vertex;
        fill_one(table, &setting, Spot { node, vertex }, list, may_end)?;
    }
    Ok(())
}

/// Fills the entries of a node from which no shift leads to the node again.
fn fill_once(table: &mut Table, lists: &Lists, ground: &Ground<'_>, node: usize) -> Filled
    requires { IsRightAt ground.now lists.now table.old node }
    ensures { OnOk result (FillsUpTo ground.now lists.now table.old table.new node (length ground.now.board.first)) }
{
    let Some(branch) = only_of(lists, ground, node) else {
        return fill_forwards(table, lists, ground, node);
    };
    let Some(direction) = branch.direction else {
        return place_node(table, lists, ground, node, branch.position);
    };
    let only = OnlyShift {
        node,
        branch,
        direction,
        may_end: lists.interner.may_end(node),
    };
    share_node(table, lists, ground, &only);
    Ok(())
}

/// Whether a position's shift leads from a vertex to a later one, or to an earlier one.
#[inline(always)]
fn steps(ground: &Ground<'_>, vertex: Vertex, position: Position, later: bool) -> bool
    requires { vertex < length ground.now.board.first }
    ensures back { later ≡ true → result ≡ false → (w : ℕ) → Comes ground.now vertex position w → w ≤ vertex }
    ensures forth { later ≡ false → result ≡ false → (w : ℕ) → Comes ground.now vertex position w → vertex ≤ w }
    ensures none { later ≡ false → ((w : ℕ) → Comes ground.now vertex position w → vertex ≤ w) → result ≡ false }
{
    match ground.to(vertex, position) {
        Some(to) => { if later { vertex < to } else { to < vertex } }
        None => false,
    }
}

/// Whether a position's shift leads from some vertex to a later one, or to an earlier one.
fn leads(ground: &Ground<'_>, position: Position, later: bool) -> bool
    ensures back { later ≡ true → result ≡ false → StepsBack ground.now position }
    ensures forth { later ≡ false → result ≡ false → StepsForth ground.now position }
    ensures none { later ≡ false → StepsForth ground.now position → result ≡ false }
{
    for index in 0..ground.vertices() {
        if steps(ground, index as Vertex, position, later) {
            return true;
        }
    }
    false
}

/// Whether a position is a shift that leads to a node, from some vertex to a later one, or to an earlier one.
#[inline(always)]
fn repeats_by(
    lists: &Lists,
    ground: &Ground<'_>,
    node: usize,
    position: Position,
    later: bool,
) -> bool
    ensures back { later ≡ true → result ≡ false → IsShiftAt ground.now.rules position
        → slice_index_or lists.now.afters.items position 0 ≡ node → StepsBack ground.now position }
    ensures forth { later ≡ false → result ≡ false → IsShiftAt ground.now.rules position
        → slice_index_or lists.now.afters.items position 0 ≡ node → StepsForth ground.now position }
    ensures none { later ≡ false → (IsShiftAt ground.now.rules position
        → slice_index_or lists.now.afters.items position 0 ≡ node → StepsForth ground.now position) → result ≡ false }
{
    ground.is_shift(position) && lists.after(position) == node && leads(ground, position, later)
}

/// Whether a shift of a node's list leads to the same node again, from some vertex to a later one, or to an earlier one.
pub(crate) fn repeats(lists: &Lists, ground: &Ground<'_>, node: usize, later: bool) -> bool
    ensures back { later ≡ true → result ≡ false → LeadsBack ground.now lists.now node }
    ensures forth { later ≡ false → result ≡ false → LeadsForth ground.now lists.now node }
    ensures none { later ≡ false → LeadsForth ground.now lists.now node → result ≡ false }
{
    for listed in lists.interner.list(node) {
        if repeats_by(lists, ground, node, *listed, later) {
            return true;
        }
    }
    false
}

/// Fills the entries of a node: forwards over the vertices if shifts lead from it to itself at earlier vertices, and
/// backwards if they lead to later ones. If they lead one way only, nothing is missing then.
pub(crate) fn fill_again(
    table: &mut Table,
    lists: &Lists,
    ground: &Ground<'_>,
    node: usize,
) -> Filled
    requires { IsRightAt ground.now lists.now table.old node }
    ensures fills { OnOk result (FillsRightly ground.now lists.now table.old table.new node) }
    ensures closed { OnOk result (LeadsOneWay ground.now lists.now node → AreClosedAt ground.now lists.now table.new node) }
{
    if !repeats(lists, ground, node, true) {
        fill_forwards(table, lists, ground, node)?;
        return Ok(());
    }
    fill_backwards(table, lists, ground, node)?;
    if repeats(lists, ground, node, false) {
        fill_forwards(table, lists, ground, node)?;
    }
    Ok(())
}

/// Whether a node is marked.
pub(crate) fn is_marked(marks: &[bool], node: usize) -> bool
    ensures { result ≡ slice_index_or marks.now node false }
{
    node < marks.len() && marks[node]
}

/// Whether no shift of a node's list leads to the node again.
fn leads_away(lists: &Lists, ground: &Ground<'_>, node: usize) -> bool
    ensures { IsTrue result → LeadsAway ground.now lists.now node }
{
    for listed in lists.interner.list(node) {
        if ground.is_shift(*listed) && lists.after(*listed) == node {
            return false;
        }
    }
    true
}

/// Whether a node is marked, or is another one.
fn is_marked_or(marks: &[bool], node: usize, other: usize) -> bool
    ensures { IsTrue result → node ≢ other → IsMarked marks.now node }
{
    node == other || is_marked(marks, node)
}

/// Whether all nodes to which a node's shifts lead are filled. The node itself isn't counted.
fn is_ready(lists: &Lists, ground: &Ground<'_>, filled: &[bool], node: usize) -> bool
    ensures { IsTrue result → LeadsToMarked ground.now lists.now filled.now node }
{
    for listed in lists.interner.list(node) {
        if ground.is_shift(*listed) && !is_marked_or(filled, lists.after(*listed), node) {
            return false;
        }
    }
    true
}

/// Fills the entries of a node.
fn fill_node(table: &mut Table, lists: &Lists, ground: &Ground<'_>, node: usize) -> Filled
    requires { IsRightAt ground.now lists.now table.old node }
    ensures fills { OnOk result (FillsRightly ground.now lists.now table.old table.new node) }
    ensures closed { OnOk result (LeadsOneWay ground.now lists.now node → AreClosedAt ground.now lists.now table.new node) }
{
    if leads_away(lists, ground, node) {
        fill_once(table, lists, ground, node)?;
        return Ok(());
    }
    fill_again(table, lists, ground, node)?;
    Ok(())
}

/// Fills a node that isn't filled, if it is ready. Returns whether it is filled then.
fn fill_next(
    table: &mut Table,
    lists: &Lists,
    ground: &Ground<'_>,
    filled: &mut [bool],
    node: usize,
) -> Result<bool, Memory>
    requires so_far { AreFilledSoFar ground.now lists.now table.old filled.old }
    requires node { node < length lists.now.interner.nodes.items }
    requires there { node < length filled.old }
    ensures size { length filled.new ≡ length filled.old }
    ensures filled { OnOk result (AreFilled ground.now lists.now table.new filled.new) }
{
    if is_marked(filled, node) || !is_ready(lists, ground, filled, node) {
        return Ok(false);
    }
    fill_node(table, lists, ground, node)?;
    filled[node] = true;
    Ok(true)
}

/// Fills the nodes that are ready. Returns whether there was one.
fn fill_ready(
    table: &mut Table,
    lists: &Lists,
    ground: &Ground<'_>,
    filled: &mut [bool],
) -> Result<bool, Memory>
    requires so_far { AreFilledSoFar ground.now lists.now table.old filled.old }
    requires size { length filled.old ≡ length lists.now.interner.nodes.items }
    ensures size { length filled.new ≡ length filled.old }
    ensures filled { OnOk result (AreFilled ground.now lists.now table.new filled.new) }
{
    let nodes = lists.interner.nodes.len();
    let mut some = false;
    for done in 0..nodes {
        let more = fill_next(table, lists, ground, filled, nodes - 1 - done)?;
        some = some || more;
    }
    Ok(some)
}

/// Fills all nodes from which shifts don't lead in a circle over several nodes. Returns which ones were filled.
pub(crate) fn fill_in_order(
    alloc: Global,
    table: &mut Table,
    lists: &Lists,
    ground: &Ground<'_>,
) -> Result<Vec<bool>, Memory>
    requires right { IsRightSoFar ground.now lists.now table.old }
    ensures { IfOk result (λ filled. AreFilled ground.now lists.now table.new filled.items) }
{
    let nodes = lists.interner.nodes.len();
    let mut filled = vec![in alloc; false; nodes]?;
    for _ in 0..nodes {
        if !fill_ready(table, lists, ground, &mut filled)? {
            return Ok(filled);
        }
    }
    Ok(filled)
}
