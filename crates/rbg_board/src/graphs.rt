//! Boards that are written out, vertex by vertex.
ghost use Rattle.std.specs.Prelude.{◌≡◌, ◌≢◌, ◌<◌, ◌≤◌, ◌^◌, ◌+◌, length, All, Any, IsSome, IfOk, OnOk, IfErr, MatchBool, nat_eq};
ghost use Rattle.std.specs.HashMap as hash;
ghost use Rattle.rbg_board.specs.Cells.{HasTwice, AreDifferent, width_of};
ghost use Rattle.rbg_board.specs.Graph.{HasWidth};
ghost use Rattle.rbg_board.specs.Written.{names_of, directions_in, directions_of, IsWritten, HasCount, GraphRefusal, MakesGraph, DirectionsDiffer, SomeDirectionTwice, TargetsKnown};
ghost use Rattle.rbg_board.specs.Vertices.{written_of};
ghost use Rattle.rbg_board.specs.Wiring.{IsIndex, AddsRow, EdgesRefusal, AllCovered, WiringRefusal};

use super::board::{Board, MAX_VERTICES};
use super::error::BoardError;
use rbg_base::{Direction, Piece, Vertex};
use std::alloc::Global;
use std::collections::HashMap;

/// One vertex of a graph as it is written.
#[derive(Drop)]
pub struct Cell {
    pub name: u32,
    pub piece: Piece,
    /// The direction of each edge, and the name of the vertex to which it leads.
    pub edges: Vec<(Direction, u32)>,
}

/// The vertex of each name.
#[tactic(auto, unfolding(crate::specs::Written::GraphRefusal))]
fn index_names(alloc: Global, cells: &[Cell]) -> Result<HashMap<u32, Vertex>, BoardError>
    requires { HasCount (written_of cells.now) }
    ensures index { IfOk result (λ index.
        IsIndex (names_of (written_of cells.now)) (hash.get nat_eq index)) }
    ensures differ { OnOk result (AreDifferent (names_of (written_of cells.now))) }
    ensures refusal { IfErr result (GraphRefusal (written_of cells.now)) }
{
    let mut index = HashMap::new(alloc);
    for (vertex, cell) in cells.iter().enumerate() {
        if index.insert(cell.name, vertex as Vertex)?.is_some() {
            return Err(BoardError::SameVertex);
        }
    }
    Ok(index)
}

/// Whether an edge has the direction.
fn leads(edges: &[(Direction, u32)], direction: Direction) -> bool
    ensures { MatchBool result
        (Any (λ edge. edge.0 ≡ direction) edges.now)
        (All (λ edge. edge.0 ≢ direction) edges.now) }
{
    edges.iter().any(|edge| edge.0 == direction)
}

/// Whether two of the edges have one direction.
#[tactic(auto, unfolding(crate::specs::Cells::AreDifferent))]
fn leads_twice(edges: &[(Direction, u32)]) -> bool
    ensures { MatchBool result (HasTwice (directions_in edges.now))
        (AreDifferent (directions_in edges.now)) }
{
    for (i, edge) in edges.iter().enumerate() {
        if leads(&edges[..i], edge.0) {
            return true;
        }
    }
    false
}

/// Whether some cell has two edges of one direction.
fn some_leads_twice(cells: &[Cell]) -> bool
    ensures { MatchBool result (SomeDirectionTwice (written_of cells.now))
        (DirectionsDiffer (written_of cells.now)) }
{
    for cell in cells {
        if leads_twice(&cell.edges) {
            return true;
        }
    }
    false
}

/// The number of entries that a vertex with these edges needs in the table.
fn edges_width(edges: &[(Direction, u32)]) -> usize
    ensures width { result ≡ width_of (directions_in edges.now) }
    ensures limit { result ≤ 2 ^ 16 }
{
    let mut width = 0usize;
    for edge in edges {
        width = width.max(edge.0 as usize + 1);
    }
    width
}

/// The number of entries that each vertex needs in the table.
fn cells_width(cells: &[Cell]) -> usize
    ensures width { result ≡ width_of (directions_of (written_of cells.now)) }
    ensures limit { result ≤ 2 ^ 16 }
    ensures covers { AllCovered result (written_of cells.now) }
{
    let mut width = 0usize;
    for cell in cells {
        width = width.max(edges_width(&cell.edges));
    }
    width
}

/// Adds a row to the table, in which the direction of each edge leads to the vertex of that edge's name.
#[tactic(auto, unfolding(crate::specs::Wiring::EdgesRefusal))]
fn push_edges(
    table: &mut Vec<Option<Vertex>>,
    width: usize,
    edges: &[(Direction, u32)],
    index: &HashMap<u32, Vertex>,
) -> Result<(), BoardError>
    requires small { length table.old.items ≤ 2 ^ 28 }
    requires width { width ≤ 2 ^ 16 }
    requires covers { All (λ edge. edge.0 < width) edges.now }
    requires different { AreDifferent (directions_in edges.now) }
    ensures row { OnOk result
        (AddsRow (hash.get nat_eq index.now) width edges.now table.old.items table.new.items) }
    ensures known { OnOk result (All (λ edge.
        IsSome (hash.get nat_eq index.now edge.1)) edges.now) }
    ensures refusal { IfErr result (EdgesRefusal (hash.get nat_eq index.now) edges.now) }
{
    let start = table.len();
    table.resize(start + width, None)?;
    for edge in edges {
        match index.get(&edge.1) {
            Some(vertex) => table[start + edge.0 as usize] = Some(*vertex),
            None => return Err(BoardError::UnknownVertex),
        }
    }
    Ok(())
}

/// The board of the cells. The index gives the vertex of each name.
#[tactic(auto, unfolding(crate::specs::Wiring::WiringRefusal))]
fn wire(alloc: Global, cells: &[Cell], index: &HashMap<u32, Vertex>) -> Result<Board, BoardError>
    requires count { HasCount (written_of cells.now) }
    requires index { IsIndex (names_of (written_of cells.now)) (hash.get nat_eq index.now) }
    requires differ { DirectionsDiffer (written_of cells.now) }
    ensures known { OnOk result (TargetsKnown (written_of cells.now)) }
    ensures board { IfOk result (IsWritten (written_of cells.now)) }
    ensures width { IfOk result (HasWidth (width_of (directions_of (written_of cells.now)))) }
    ensures refusal { IfErr result (WiringRefusal (written_of cells.now)) }
{
    let width = cells_width(cells);
    let mut first = Vec::with_capacity(alloc, cells.len())?;
    let mut table = Vec::with_capacity(alloc, cells.len() * width)?;
    for cell in cells {
        push_edges(&mut table, width, &cell.edges, index)?;
        first.push(cell.piece)?;
    }
    Ok(Board::new(first, width, table))
}

/// The board of a graph that is written out. The cells are its vertices, in order.
///
/// It looks for the faults in this order: `NoCell`, `TooManyVertices`, `SameVertex`, `SameDirection`, `UnknownVertex`.
#[tactic(auto, unfolding(crate::specs::Written::GraphRefusal))]
pub fn graph(alloc: Global, cells: &[Cell]) -> Result<Board, BoardError>
    ensures lawful { OnOk result (MakesGraph (written_of cells.now)) }
    ensures board { IfOk result (IsWritten (written_of cells.now)) }
    ensures width { IfOk result (HasWidth (width_of (directions_of (written_of cells.now)))) }
    ensures refusal { IfErr result (GraphRefusal (written_of cells.now)) }
{
    if cells.is_empty() {
        return Err(BoardError::NoCell);
    }
    if cells.len() > MAX_VERTICES {
        return Err(BoardError::TooManyVertices);
    }
    let index = index_names(alloc, cells)?;
    if some_leads_twice(cells) {
        return Err(BoardError::SameDirection);
    }
    wire(alloc, cells, &index)
}
