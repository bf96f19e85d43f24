//! The layout of a board: rows, or named vertices, as its description writes them.
ghost use Rattle.std.specs.Prelude.{◌≡◌, map, length, IfOk};
ghost use Rattle.rbg_grammar.specs.Views.{names_of, vertex_of, board_of};
ghost use Rattle.rbg_game.specs.NameTables.{bytes_of};
ghost use Rattle.rbg_game.specs.Descriptions.{vertex_names};
ghost use Rattle.rbg_game.specs.Layouts.{IsLayoutOf};

use rbg_grammar::{Name, ParsedBoard, Vertex};
use std::alloc::{AllocError, Global};

/// The layout of a board, as its description writes it. Vertices are numbered in this order.
pub enum Layout {
    /// Rows of squares from top to bottom, each with its length.
    Rectangle { rows: Vec<usize> },
    /// Rows from top to bottom with their lengths, each of them shifted by half a cell.
    Hexagon { rows: Vec<usize> },
    /// Vertices with names.
    Graph { names: Vec<Vec<u8>> },
}

/// Written by hand: dropping a layout is then one call in the proofs of its owners, not a step for each part.
impl Drop for Layout {
    fn drop(self) {
        match self {
            Layout::Rectangle { rows: _ }
            | Layout::Hexagon { rows: _ }
            | Layout::Graph { names: _ } => {}
        }
    }
}

/// The layout of a board.
pub(crate) fn layout_of(alloc: Global, board: &ParsedBoard<'_>) -> Result<Layout, AllocError>
    ensures { IfOk result (IsLayoutOf (board_of board.now)) }
{
    match board {
        ParsedBoard::Rectangle { rows, .. } => Ok(Layout::Rectangle {
            rows: row_lengths(alloc, rows)?,
        }),
        ParsedBoard::Hexagon { rows, .. } => Ok(Layout::Hexagon {
            rows: row_lengths(alloc, rows)?,
        }),
        ParsedBoard::Graph { vertices } => Ok(Layout::Graph {
            names: copy_names(alloc, vertices)?,
        }),
    }
}

/// The lengths of rows.
fn row_lengths(alloc: Global, rows: &[Vec<Name<'_>>]) -> Result<Vec<usize>, AllocError>
    ensures { IfOk result (λ lengths. lengths.items ≡ map length (map names_of rows.now)) }
{
    let mut lengths = Vec::with_capacity(alloc, rows.len())?;
    for row in rows {
        lengths.push(row.len())?;
    }
    Ok(lengths)
}

/// The names of vertices.
fn copy_names(alloc: Global, vertices: &[Vertex<'_>]) -> Result<Vec<Vec<u8>>, AllocError>
    ensures { IfOk result (λ names.
        bytes_of names.items ≡ vertex_names (map vertex_of vertices.now)) }
{
    let mut names = Vec::with_capacity(alloc, vertices.len())?;
    for vertex in vertices {
        names.push(Vec::from_slice(alloc, vertex.name.text)?)?;
    }
    Ok(names)
}
