//! The graph of a board, as a description writes it.
ghost use Rattle.std.specs.Prelude.{◌≡◌, ◌++◌, IfOk, OnOk, codes, decimal};
ghost use Rattle.std.specs.List.{flat_map};
ghost use Rattle.rbg_import.specs.Geometry.{edges_along, edges_from};
ghost use Rattle.rbg_import.specs.Graphs.{edge_text, edges_text, graph_text as text_of_graph, is_flat, place_name, vertex_text};

use crate::board::{Board, Cell, Direction, Shape};
use crate::place::Place;
use itoa::Buffer;
use std::alloc::{AllocError, Global};

/// An edge of a cell: its direction, and the cell to which it leads.
#[derive(Clone, Copy)]
struct Edge<'a> {
    direction: &'a [u8],
    to: Place,
}

/// The graph of a board: a vertex for each cell that is there, with an edge for each direction that leads to another one.
pub(crate) fn graph_text(alloc: Global, board: &Board<'_>) -> Result<Vec<u8>, AllocError>
    ensures { IfOk result (λ text. text.items ≡ text_of_graph board.now) }
{
    let mut output = Vec::new(alloc);
    push_graph(alloc, board, &mut output)?;
    Ok(output)
}

fn push_graph(alloc: Global, board: &Board<'_>, output: &mut Vec<u8>) -> Result<(), AllocError>
    ensures { OnOk result (output.new.items ≡ output.old.items ++ text_of_graph board.now) }
{
    output.extend_from_slice(b"graph(")?;
    push_vertices(alloc, board, output)?;
    output.extend_from_slice(b")")
}

fn push_vertices(alloc: Global, board: &Board<'_>, output: &mut Vec<u8>) -> Result<(), AllocError>
    ensures { OnOk result (output.new.items
        ≡ output.old.items ++ flat_map (vertex_text board.now) board.now.cells.items) }
{
    for cell in &board.cells {
        push_vertex(alloc, board, *cell, output)?;
    }
    Ok(())
}

fn push_vertex(
    alloc: Global,
    board: &Board<'_>,
    cell: Cell<'_>,
    output: &mut Vec<u8>,
) -> Result<(), AllocError>
    ensures { OnOk result (output.new.items ≡ output.old.items ++ vertex_text board.now cell.entry) }
{
    let edges = edges_of(alloc, board, cell.place)?;
    output.extend_from_slice(b"\n    ")?;
    push_place(cell.place, is_flat(board.shape), output)?;
    push_between(b"[", cell.piece, b"]{", output)?;
    push_edges(&edges, is_flat(board.shape), output)?;
    output.extend_from_slice(b"}")
}

/// Whether places have no number of a layer.
fn is_flat(shape: Shape) -> bool
    ensures { result ≡ is_flat shape }
{
    matches!(shape, Shape::Rectangle)
}

/// The edges of the cell at a place: for each direction in order the cell to which it leads, if there is one.
fn edges_of<'a>(alloc: Global, board: &Board<'a>, from: Place) -> Result<Vec<Edge<'a>>, AllocError>
    ensures { IfOk result (λ edges. edges.items ≡ edges_from board.now from) }
{
    let mut edges = Vec::new(alloc);
    for direction in &board.directions {
        push_edges_along(&board.cells, *direction, from, &mut edges)?;
    }
    Ok(edges)
}

/// Adds the edge of a place in a direction, if it leads to a cell.
fn push_edges_along<'a>(
    cells: &[Cell<'_>],
    direction: Direction<'a>,
    from: Place,
    edges: &mut Vec<Edge<'a>>,
) -> Result<(), AllocError>
    ensures { OnOk result (edges.new.items
        ≡ edges.old.items ++ edges_along cells.now from direction.entry) }
{
    for cell in cells {
        if direction.way.leads(from, cell.place) {
            edges.push(Edge {
                direction: direction.name,
                to: cell.place,
            })?;
        }
    }
    Ok(())
}

/// Adds edges, with commas between them.
fn push_edges(edges: &[Edge<'_>], is_flat: bool, output: &mut Vec<u8>) -> Result<(), AllocError>
    ensures { OnOk result (output.new.items ≡ output.old.items ++ edges_text is_flat edges.now) }
{
    let Some((first, others)) = edges.split_first() else {
        return Ok(());
    };
    push_edge(b"", *first, is_flat, output)?;
    push_more_edges(others, is_flat, output)
}

fn push_more_edges(
    edges: &[Edge<'_>],
    is_flat: bool,
    output: &mut Vec<u8>,
) -> Result<(), AllocError>
    ensures { OnOk result (output.new.items
        ≡ output.old.items ++ flat_map (λ e. codes ", " ++ edge_text is_flat e) edges.now) }
{
    for edge in edges {
        push_edge(b", ", *edge, is_flat, output)?;
    }
    Ok(())
}

fn push_edge(
    before: &[u8],
    edge: Edge<'_>,
    is_flat: bool,
    output: &mut Vec<u8>,
) -> Result<(), AllocError>
    ensures { OnOk result (output.new.items
        ≡ output.old.items ++ (before.now ++ edge_text is_flat edge.entry)) }
{
    push_between(before, edge.direction, b": ", output)?;
    push_place(edge.to, is_flat, output)
}

/// Adds the name of the vertex at a place.
fn push_place(place: Place, is_flat: bool, output: &mut Vec<u8>) -> Result<(), AllocError>
    ensures { OnOk result (output.new.items ≡ output.old.items ++ place_name is_flat place) }
{
    push_number(b"x", place.x, output)?;
    push_number(b"y", place.y, output)?;
    if is_flat {
        return Ok(());
    }
    push_number(b"z", place.z, output)
}

fn push_number(mark: &[u8], number: usize, output: &mut Vec<u8>) -> Result<(), AllocError>
    ensures { OnOk result (output.new.items ≡ output.old.items ++ (mark.now ++ decimal number)) }
{
    let mut buffer = Buffer::new();
    push_between(mark, buffer.format(number).as_bytes(), b"", output)
}

/// Adds bytes, with others before and after them.
fn push_between(
    before: &[u8],
    bytes: &[u8],
    after: &[u8],
    output: &mut Vec<u8>,
) -> Result<(), AllocError>
    ensures { OnOk result (output.new.items
        ≡ output.old.items ++ ((before.now ++ bytes.now) ++ after.now)) }
{
    output.extend_from_slice(before)?;
    output.extend_from_slice(bytes)?;
    output.extend_from_slice(after)
}
