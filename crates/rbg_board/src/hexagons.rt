//! Hexagons: rows that grow and then shrink by one cell each, six directions.
ghost use Rattle.std.specs.Prelude.{◌≡◌, IfOk, OnOk, IfErr, MatchBool, MatchOption};
ghost use Rattle.rbg_board.specs.Limits.{most_vertices};
ghost use Rattle.rbg_board.specs.Graph.{UsesOnly, HasWidth};
ghost use Rattle.rbg_board.specs.Cells.{rows_of, width_of};
ghost use Rattle.rbg_board.specs.Hexagon.{IsHexagon, HexagonRefusal, MakesHexagon, LacksCell, HasCells, GrowsThenShrinks, IsFirstMisfit};
ghost use Rattle.rbg_board.specs.Sites.{IsSite};
ghost use Rattle.rbg_board.specs.Shapes.{cell_left, cell_right, hexagon_leads, hexagon_leads_within};

use super::board::{Board, MAX_VERTICES};
use super::directions::{has_twice, table_width};
use super::error::BoardError;
use super::rows::{Shape, Site, cells_in, count_cells, lay_out};
use rbg_base::{Direction, Piece, Vertex};
use std::alloc::Global;

/// The directions north-west, north-east, east, south-east, south-west and west.
#[derive(Clone, Copy)]
struct HexagonShape {
    directions: [Direction; 6],
}

/// The cell to the left in the row above or below, which has this number of cells.
#[tactic(auto, unfolding(crate::specs::Shapes::cell_left))]
fn left(site: &Site, cells: usize) -> Option<usize>
    ensures { result ≡ cell_left site.now cells }
{
    if site.here < cells {
        Some(site.cell)
    } else {
        site.cell.checked_sub(1)
    }
}

/// The cell to the right in the row above or below, which has this number of cells.
#[tactic(auto, unfolding(crate::specs::Shapes::cell_right))]
fn right(site: &Site, cells: usize) -> usize
    requires { IsSite site.now most_vertices }
    ensures { result ≡ cell_right site.now cells }
{
    if site.here < cells {
        site.cell + 1
    } else {
        site.cell
    }
}

impl Shape for HexagonShape {
    ghost leads = { λ shape. hexagon_leads shape.directions };

    ghost leads_within = { λ shape. hexagon_leads_within shape.directions };

    #[tactic(auto, unfolding(crate::specs::Shapes::hexagon_leads))]
    fn leads(&self, site: &Site, direction: Direction) -> Option<Vertex> {
        let [north_west, north_east, east, south_east, south_west, west] = self.directions;
        if direction == north_west {
            site.in_row_above(left(site, site.above)?)
        } else if direction == north_east {
            site.in_row_above(right(site, site.above))
        } else if direction == east {
            site.in_row(site.cell + 1)
        } else if direction == south_east {
            site.in_row_below(right(site, site.below))
        } else if direction == south_west {
            site.in_row_below(left(site, site.below)?)
        } else if direction == west {
            site.in_row(site.cell.checked_sub(1)?)
        } else {
            None
        }
    }
}

/// Whether there is no row, or a row has no cell.
fn lacks_cell(rows: &[Vec<Piece>]) -> bool
    ensures { MatchBool result (LacksCell (rows_of rows.now)) (HasCells (rows_of rows.now)) }
{
    if rows.is_empty() {
        return true;
    }
    for row in rows {
        if row.is_empty() {
            return true;
        }
    }
    false
}

/// The first row that does not fit the rows above it, which grow and then shrink by one cell each.
fn first_misfit(rows: &[Vec<Piece>]) -> Option<usize>
    ensures { MatchOption result (GrowsThenShrinks (rows_of rows.now))
        (IsFirstMisfit (rows_of rows.now)) }
{
    let mut shrinking = false;
    for row in 1..rows.len() {
        let above = cells_in(rows, row - 1);
        let here = cells_in(rows, row);
        if above.abs_diff(here) != 1 {
            return Some(row);
        }
        if here < above {
            shrinking = true;
        } else if shrinking {
            return Some(row);
        }
    }
    None
}

/// The board of a hexagon: rows from top to bottom that grow and then shrink by one cell each, with the directions
/// north-west, north-east, east, south-east, south-west and west.
///
/// It looks for the faults in this order: `NoCell`, `RowLength`, `TooManyVertices`, `SameDirection`.
#[tactic(auto, unfolding(crate::specs::RowLaws::RowsRefusal))]
pub fn hexagon(
    alloc: Global,
    directions: [Direction; 6],
    rows: &[Vec<Piece>],
) -> Result<Board, BoardError>
    ensures lawful { OnOk result (MakesHexagon directions (rows_of rows.now)) }
    ensures board { IfOk result (IsHexagon directions (rows_of rows.now)) }
    ensures directions { IfOk result (UsesOnly directions) }
    ensures width { IfOk result (HasWidth (width_of directions)) }
    ensures refusal { IfErr result (HexagonRefusal directions (rows_of rows.now)) }
{
    if lacks_cell(rows) {
        return Err(BoardError::NoCell);
    }
    if let Some(row) = first_misfit(rows) {
        return Err(BoardError::RowLength { row });
    }
    let vertices = count_cells(rows)?;
    if has_twice(&directions) {
        return Err(BoardError::SameDirection);
    }
    let shape = HexagonShape { directions };
    let board = lay_out(alloc, &shape, table_width(&directions), rows, vertices)?;
    Ok(board)
}
