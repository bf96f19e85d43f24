//! Rectangles: rows of one length, four directions.
ghost use Rattle.std.specs.Prelude.{IfOk, OnOk, IfErr, MatchOption};
ghost use Rattle.rbg_board.specs.Graph.{UsesOnly, HasWidth};
ghost use Rattle.rbg_board.specs.Cells.{rows_of, width_of};
ghost use Rattle.rbg_board.specs.Rectangle.{IsRectangle, RectangleRefusal, MakesRectangle, IsEven, IsFirstUneven};
ghost use Rattle.rbg_board.specs.Shapes.{rectangle_leads, rectangle_leads_within};

use super::board::Board;
use super::directions::{has_twice, table_width};
use super::error::BoardError;
use super::rows::{Shape, Site, cells_in, count_cells, lay_out};
use rbg_base::{Direction, Piece, Vertex};
use std::alloc::Global;

/// The directions up, down, left and right.
#[derive(Clone, Copy)]
struct RectangleShape {
    directions: [Direction; 4],
}

impl Shape for RectangleShape {
    ghost leads = { λ shape. rectangle_leads shape.directions };

    ghost leads_within = { λ shape. rectangle_leads_within shape.directions };

    #[tactic(auto, unfolding(crate::specs::Shapes::rectangle_leads))]
    fn leads(&self, site: &Site, direction: Direction) -> Option<Vertex> {
        let [up, down, left, right] = self.directions;
        if direction == up {
            site.in_row_above(site.cell)
        } else if direction == down {
            site.in_row_below(site.cell)
        } else if direction == left {
            site.in_row(site.cell.checked_sub(1)?)
        } else if direction == right {
            site.in_row(site.cell + 1)
        } else {
            None
        }
    }
}

/// The first row that is not as long as row 0.
fn first_uneven(rows: &[Vec<Piece>]) -> Option<usize>
    ensures { MatchOption result (IsEven (rows_of rows.now)) (IsFirstUneven (rows_of rows.now)) }
{
    let width = cells_in(rows, 0);
    for (r, row) in rows.iter().enumerate() {
        if row.len() != width {
            return Some(r);
        }
    }
    None
}

/// The board of a rectangle: rows from top to bottom, all of one length, with the directions up, down, left and right.
///
/// It looks for the faults in this order: `NoCell`, `RowLength`, `TooManyVertices`, `SameDirection`.
#[tactic(auto, unfolding(crate::specs::RowLaws::RowsRefusal))]
pub fn rectangle(
    alloc: Global,
    directions: [Direction; 4],
    rows: &[Vec<Piece>],
) -> Result<Board, BoardError>
    ensures lawful { OnOk result (MakesRectangle directions (rows_of rows.now)) }
    ensures board { IfOk result (IsRectangle directions (rows_of rows.now)) }
    ensures directions { IfOk result (UsesOnly directions) }
    ensures width { IfOk result (HasWidth (width_of directions)) }
    ensures refusal { IfErr result (RectangleRefusal directions (rows_of rows.now)) }
{
    if cells_in(rows, 0) == 0 {
        return Err(BoardError::NoCell);
    }
    if let Some(row) = first_uneven(rows) {
        return Err(BoardError::RowLength { row });
    }
    let vertices = count_cells(rows)?;
    if has_twice(&directions) {
        return Err(BoardError::SameDirection);
    }
    let shape = RectangleShape { directions };
    let board = lay_out(alloc, &shape, table_width(&directions), rows, vertices)?;
    Ok(board)
}
