//! Boards as text.

use crate::signs::{Signs, width_of};
use rbg_base::Piece;
use rbg_drawing::push_square;
use rbg_game::Layout;
use std::alloc::{AllocError, Global};

/// About how many bytes a line of a graph's vertices has.
const GRAPH_LINE: usize = 72;

/// How many columns a cell of a row has, and by how many a row is shifted for each cell that it has less than the longest.
#[derive(Clone, Copy)]
struct RowForm {
    cell: usize,
    shift: usize,
}

/// How the boards of a game are drawn.
#[derive(Drop)]
pub(crate) struct Drawing<'a> {
    pub alloc: Global,
    pub layout: &'a Layout,
    pub signs: Signs<'a>,
}

impl Drawing<'_> {
    /// Draws the pieces of all vertices in order. A row begins with the number and the name of its first vertex.
    pub(crate) fn push_board(
        &self,
        output: &mut Vec<u8>,
        pieces: &[Piece],
    ) -> Result<(), AllocError> {
        match self.layout {
            Layout::Rectangle { rows } => {
                let form = RowForm {
                    cell: self.signs.width().saturating_add(1),
                    shift: 0,
                };
                self.push_rows(output, pieces, rows, form)
            }
            Layout::Hexagon { rows } => {
                // half a cell is a whole number of columns
                let half = self.signs.width() / 2 + 1;
                let form = RowForm {
                    cell: half.saturating_mul(2),
                    shift: half,
                };
                self.push_rows(output, pieces, rows, form)
            }
            Layout::Graph { .. } => self.push_vertices(output, pieces),
        }
    }

    /// Draws rows of this form.
    fn push_rows(
        &self,
        output: &mut Vec<u8>,
        pieces: &[Piece],
        rows: &[usize],
        form: RowForm,
    ) -> Result<(), AllocError> {
        let longest = longest_of(rows);
        // (the first vertex of all has the longest name of those at the beginning of a row)
        let name = self.width_of_name(0)?;
        let mut first = 0usize;
        for row in rows {
            let missing = longest.saturating_sub(*row);
            self.push_label(output, first, name)?;
            push_spaces(output, missing.saturating_mul(form.shift))?;
            self.push_row(output, row_from(pieces, first, *row), form.cell)?;
            first = first.saturating_add(*row);
        }
        Ok(())
    }

    /// Writes the number of the first vertex of a row, and its name, which is made as wide as this.
    fn push_label(
        &self,
        output: &mut Vec<u8>,
        first: usize,
        width: usize,
    ) -> Result<(), AllocError> {
        let label = format!(in self.alloc; "{first:>4} ")?;
        output.extend_from_slice(label.as_bytes())?;
        push_square(self.layout, first, output)?;
        push_spaces(output, width.saturating_sub(self.width_of_name(first)?))?;
        output.extend_from_slice(b" |")
    }

    /// How wide the name of a vertex is.
    fn width_of_name(&self, vertex: usize) -> Result<usize, AllocError> {
        let mut name = Vec::new(self.alloc);
        push_square(self.layout, vertex, &mut name)?;
        Ok(name.len())
    }

    /// Draws the cells of a row. There are no spaces at its end.
    fn push_row(
        &self,
        output: &mut Vec<u8>,
        pieces: &[Piece],
        cell: usize,
    ) -> Result<(), AllocError> {
        let mut gap = 1usize;
        for piece in pieces {
            let sign = self.signs.sign(*piece);
            push_spaces(output, gap)?;
            output.extend_from_slice(sign)?;
            gap = cell.saturating_sub(width_of(sign));
        }
        output.push(b'\n')?;
        Ok(())
    }

    /// Lists the vertices by their names.
    fn push_vertices(&self, output: &mut Vec<u8>, pieces: &[Piece]) -> Result<(), AllocError> {
        let mut start = output.len();
        for (vertex, piece) in pieces.iter().enumerate() {
            if output.len().saturating_sub(start) > GRAPH_LINE {
                output.push(b'\n')?;
                start = output.len();
            }
            self.push_named(output, vertex, *piece)?;
        }
        output.push(b'\n')?;
        Ok(())
    }

    /// Writes a vertex and the piece on it: ` e4:p`.
    fn push_named(
        &self,
        output: &mut Vec<u8>,
        vertex: usize,
        piece: Piece,
    ) -> Result<(), AllocError> {
        output.push(b' ')?;
        push_square(self.layout, vertex, output)?;
        output.push(b':')?;
        output.extend_from_slice(self.signs.sign(piece))
    }
}

/// The length of the longest row.
fn longest_of(rows: &[usize]) -> usize {
    rows.iter().copied().max().unwrap_or(0)
}

/// The pieces of a row of this length that begins with this vertex.
fn row_from(pieces: &[Piece], first: usize, length: usize) -> &[Piece] {
    let rest = pieces.get(first..).unwrap_or(&[]);
    rest.get(..length).unwrap_or(rest)
}

fn push_spaces(output: &mut Vec<u8>, count: usize) -> Result<(), AllocError> {
    for _ in 0..count {
        output.push(b' ')?;
    }
    Ok(())
}
