//! The board of a graph by numbers: its vertices by their places in the text, its directions in order of first use.
ghost use Rattle.std.specs.Prelude.{◌≡◌, ◌≤◌, ◌<◌, ◌^◌, List, ℕ, map, length, All, Contains, IfOk, OnOk, IfErr};
ghost use Rattle.std.specs.List.{AllZip};
ghost use Rattle.rbg_board.specs.Vertices.{written_of};
ghost use Rattle.rbg_grammar.specs.Tree.{graph};
ghost use Rattle.rbg_grammar.specs.Views.{edge_of, vertex_of};
ghost use Rattle.rbg_rules.specs.Meaning.{AreDifferentNames};
ghost use Rattle.rbg_game.specs.NameNumbers.{IsNumberOf};
ghost use Rattle.rbg_game.specs.Descriptions.{IsOrderOfFirstUse, directions_named, vertex_names};
ghost use Rattle.rbg_game.specs.Faults.{HasBoardFault, board_pieces};
ghost use Rattle.rbg_game.specs.NameTables.{HasLookUpFault};
ghost use Rattle.rbg_game.specs.internal.Boards.{MakesBoard};
ghost use Rattle.rbg_game.specs.internal.Graphs.{AddsInOrder, edge_directions, IsEdge, IsCell};

use crate::checking::boards::{NamedBoard, named};
use crate::checking::directions::join;
use crate::game_error::{GameError, Thing, refuse_many};
use crate::name_table::NameTable;
use rbg_board::{BoardError, Cell, MAX_VERTICES, graph};
use rbg_grammar::{Edge, Vertex};
use rbg_rules::limits::{MAX_DIRECTIONS, MAX_PIECES};
use std::alloc::Global;

/// The numbers of the pieces of vertices.
fn number_pieces(
    alloc: Global,
    pieces: &NameTable,
    vertices: &[Vertex<'_>],
) -> Result<Vec<u16>, GameError>
    requires { length pieces.now ≤ 2 ^ 16 }
    ensures numbers { IfOk result
        (λ ns. AllZip (IsNumberOf pieces.now) (board_pieces (graph (map vertex_of vertices.now)))
        ns.items) }
    ensures fault { IfErr result (HasLookUpFault pieces.now
        (board_pieces (graph (map vertex_of vertices.now)))) }
{
    let mut numbers = Vec::with_capacity(alloc, vertices.len())?;
    for vertex in vertices {
        numbers.push(pieces.find(&vertex.piece)?)?;
    }
    Ok(numbers)
}

/// Adds the directions of edges that are new to the table.
fn join_directions(table: &mut NameTable, edges: &[Edge<'_>]) -> Result<(), GameError>
    ensures order { OnOk result (AddsInOrder (edge_directions (map edge_of edges.now)) table.old
        table.new) }
    ensures memory { IfErr result (λ error. error ≡ GameError.Memory) }
{
    for edge in edges {
        join(table, &edge.direction)?;
    }
    Ok(())
}

/// The directions of vertices in order of first use.
fn name_directions(alloc: Global, vertices: &[Vertex<'_>]) -> Result<NameTable, GameError>
    ensures order { IfOk result (IsOrderOfFirstUse
        (directions_named (map vertex_of vertices.now))) }
    ensures memory { IfErr result (λ error. error ≡ GameError.Memory) }
{
    let mut table = NameTable::new(alloc);
    for vertex in vertices {
        join_directions(&mut table, &vertex.edges)?;
    }
    Ok(table)
}

/// The names of vertices, which have to differ.
fn name_vertices(alloc: Global, vertices: &[Vertex<'_>]) -> Result<NameTable, GameError>
    ensures names { IfOk result (λ names. names ≡ vertex_names (map vertex_of vertices.now)) }
    ensures differ { IfOk result AreDifferentNames }
    ensures fault { IfErr result
        (λ error. (pieces : List (List ℕ))
        → HasBoardFault pieces (graph (map vertex_of vertices.now)) error) }
{
    let mut names = NameTable::new(alloc);
    for (vertex, written) in vertices.iter().enumerate() {
        if join(&mut names, &written.name)? < vertex {
            return Err(GameError::Board {
                error: BoardError::SameVertex,
            });
        }
    }
    Ok(names)
}

/// Edges by numbers. A target that is no vertex has a number that no vertex has.
fn number_edges(
    alloc: Global,
    directions: &NameTable,
    names: &NameTable,
    edges: &[Edge<'_>],
) -> Result<Vec<(u16, u32)>, GameError>
    requires few { length directions.now ≤ MAX_DIRECTIONS }
    requires known { All (λ edge. Contains directions.now edge.direction.text.now) edges.now }
    requires vertices { length names.now ≤ MAX_VERTICES }
    ensures edges { IfOk result (λ es.
        AllZip (IsEdge directions.now names.now) (map edge_of edges.now) es.items) }
    ensures memory { IfErr result (λ error. error ≡ GameError.Memory) }
{
    let mut numbers = Vec::with_capacity(alloc, edges.len())?;
    for edge in edges {
        let direction = directions.find(&edge.direction)?;
        let target = names.number_of(edge.target.text).unwrap_or(names.len());
        numbers.push((direction, target as u32))?;
    }
    Ok(numbers)
}

/// The vertices by numbers, each named by its place.
fn number_cells(
    alloc: Global,
    pieces: &[u16],
    directions: &NameTable,
    names: &NameTable,
    vertices: &[Vertex<'_>],
) -> Result<Vec<Cell>, GameError>
    requires few { length directions.now ≤ MAX_DIRECTIONS }
    requires known { IsOrderOfFirstUse (directions_named (map vertex_of vertices.now))
        directions.now }
    requires names { names.now ≡ vertex_names (map vertex_of vertices.now) }
    requires vertices { length vertices.now ≤ MAX_VERTICES }
    requires pieces { length pieces.now ≡ length vertices.now }
    ensures cells { IfOk result (λ cells. (table : List (List ℕ)) →
        AllZip (IsNumberOf table) (board_pieces (graph (map vertex_of vertices.now))) pieces.now →
        AllZip (IsCell table directions.now names.now) (map vertex_of vertices.now)
        (written_of cells.items)) }
    ensures memory { IfErr result (λ error. error ≡ GameError.Memory) }
{
    let mut cells = Vec::with_capacity(alloc, vertices.len())?;
    for (place, vertex) in vertices.iter().enumerate() {
        let edges = number_edges(alloc, directions, names, &vertex.edges)?;
        cells.push(Cell {
            name: place as u32,
            piece: pieces[place],
            edges,
        })?;
    }
    Ok(cells)
}

/// The board of a graph. The faults are looked for in this order: unknown pieces, too many directions, and then
/// what is wrong with the board itself.
pub(crate) fn make_graph(
    alloc: Global,
    pieces: &NameTable,
    vertices: &[Vertex<'_>],
) -> Result<NamedBoard, GameError>
    requires { length pieces.now ≤ MAX_PIECES }
    ensures board { IfOk result
        (λ b. MakesBoard pieces.now (graph (map vertex_of vertices.now)) b.directions b.board) }
    ensures fault { IfErr result (HasBoardFault pieces.now (graph (map vertex_of vertices.now))) }
{
    let first = number_pieces(alloc, pieces, vertices)?;
    let directions = name_directions(alloc, vertices)?;
    refuse_many(directions.len(), MAX_DIRECTIONS, Thing::Directions)?;
    if vertices.len() > MAX_VERTICES {
        return Err(GameError::Board {
            error: BoardError::TooManyVertices,
        });
    }
    let names = name_vertices(alloc, vertices)?;
    let cells = number_cells(alloc, &first, &directions, &names, vertices)?;
    named(directions, graph(alloc, &cells))
}
