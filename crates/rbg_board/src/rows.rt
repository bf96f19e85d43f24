//! Boards of rows, whose cells are numbered along the rows: what rectangles and hexagons share.
ghost use Rattle.std.specs.Prelude.{◌≡◌, ℕ, ◌+◌, ◌*◌, ◌^◌, ◌<◌, ◌≤◌, ◌++◌, length, Option, IfOk, OnOk, IfErr, OnErr, IfSome};
ghost use Rattle.std.specs.List.{concat, flat_map};
ghost use Rattle.rbg_board.specs.Graph.{HasWidth};
ghost use Rattle.rbg_board.specs.Limits.{most_vertices};
ghost use Rattle.rbg_board.specs.Cells.{rows_of, cells_in};
ghost use Rattle.rbg_board.specs.Sites.{IsRow, IsSite, IsLaidOut, vertex_above, vertex_here, vertex_below, vertex_in, ways_from, sites_along};
ghost use Rattle.rbg_board.specs.declared.rows.Site.{Site};

use super::board::{Board, MAX_VERTICES};
use super::error::BoardError;
use rbg_base::{Direction, Memory, Piece, Vertex};
use std::alloc::Global;

/// A cell with the lengths of the rows around it.
#[derive(Clone, Copy)]
pub(crate) struct Site {
    /// The vertex of the first cell of the cell's row.
    pub start: usize,
    /// The number of cells of the row above, or 0 if there is none.
    pub above: usize,
    /// The number of cells of the cell's own row.
    pub here: usize,
    /// The number of cells of the row below, or 0 if there is none.
    pub below: usize,
    /// The index of the cell in its row.
    pub cell: usize,
}

impl Site {
    /// The vertex of a cell of the row above.
    #[tactic(auto, unfolding(crate::specs::Sites::vertex_above))]
    pub fn in_row_above(&self, cell: usize) -> Option<Vertex>
        requires { IsSite self.now most_vertices }
        ensures { result ≡ vertex_above self.now cell }
    {
        vertex_in(self.start - self.above, self.above, cell)
    }

    /// The vertex of a cell of the same row.
    #[tactic(auto, unfolding(crate::specs::Sites::vertex_here))]
    pub fn in_row(&self, cell: usize) -> Option<Vertex>
        requires { IsSite self.now most_vertices }
        ensures { result ≡ vertex_here self.now cell }
    {
        vertex_in(self.start, self.here, cell)
    }

    /// The vertex of a cell of the row below.
    #[tactic(auto, unfolding(crate::specs::Sites::vertex_below))]
    pub fn in_row_below(&self, cell: usize) -> Option<Vertex>
        requires { IsSite self.now most_vertices }
        ensures { result ≡ vertex_below self.now cell }
    {
        vertex_in(self.start + self.here, self.below, cell)
    }
}

/// The vertex of a cell of a row that begins at a vertex and has this many cells.
fn vertex_in(start: usize, cells: usize, cell: usize) -> Option<Vertex>
    requires { start + cells ≤ most_vertices }
    ensures { result ≡ vertex_in start cells cell }
{
    if cell < cells {
        Some((start + cell) as Vertex)
    } else {
        None
    }
}

/// The directions of a board of rows, and where each of them leads.
pub(crate) trait Shape {
    ghost leads: { Self → Site → ℕ → Option ℕ };

    /// The vertex to which a direction leads from a cell.
    fn leads(&self, site: &Site, direction: Direction) -> Option<Vertex>
        requires { IsSite site.now most_vertices }
        ensures { result ≡ leads self.now site.now direction };

    ghost leads_within: { (shape : Self) (site : Site) (d limit : ℕ)
        → IsSite site limit
        → IfSome (leads shape site d) (λ u. u < limit) };
}

/// Adds the entries of a cell to the table.
fn push_ways<S: Shape>(
    table: &mut Vec<Option<Vertex>>,
    shape: &S,
    width: usize,
    site: &Site,
) -> Result<(), Memory>
    requires site { IsSite site.now most_vertices }
    requires width { width ≤ 2 ^ 16 }
    ensures { OnOk result
        (table.new.items ≡ table.old.items ++ ways_from (S.leads shape.now) width site.now) }
{
    for direction in 0..width {
        table.push(shape.leads(site, direction as Direction))?;
    }
    Ok(())
}

/// Adds the entries of the cells of one row to the table. `row` is the first cell of the row.
fn push_row<S: Shape>(
    table: &mut Vec<Option<Vertex>>,
    shape: &S,
    width: usize,
    row: Site,
) -> Result<(), Memory>
    requires row { IsRow row most_vertices }
    requires width { width ≤ 2 ^ 16 }
    ensures { OnOk result
        (table.new.items
        ≡ table.old.items
        ++ flat_map (ways_from (S.leads shape.now) width) (sites_along row row.here)) }
{
    for cell in 0..row.here {
        push_ways(table, shape, width, &Site { cell, ..row })?;
    }
    Ok(())
}

/// The number of cells. Returns an error if there are more than a board's vertices.
pub(crate) fn count_cells(rows: &[Vec<Piece>]) -> Result<usize, BoardError>
    ensures count { IfOk result (λ count. count ≡ length (concat (rows_of rows.now))) }
    ensures fits { OnOk result (length (concat (rows_of rows.now)) ≤ most_vertices) }
    ensures too_many { IfErr result (λ error. error ≡ BoardError.TooManyVertices) }
    ensures exceeds { OnErr result (most_vertices < length (concat (rows_of rows.now))) }
{
    let mut count = 0;
    for row in rows {
        if row.len() > MAX_VERTICES - count {
            return Err(BoardError::TooManyVertices);
        }
        count += row.len();
    }
    Ok(count)
}

/// The number of cells of a row, or 0 if there is no such row.
pub(crate) fn cells_in(rows: &[Vec<Piece>], row: usize) -> usize
    ensures { result ≡ cells_in (rows_of rows.now) row }
{
    match rows.get(row) {
        Some(cells) => cells.len(),
        None => 0,
    }
}

/// The board of the rows: each direction below the width leads as the shape has it.
pub(crate) fn lay_out<S: Shape>(
    alloc: Global,
    shape: &S,
    width: usize,
    rows: &[Vec<Piece>],
    vertices: usize,
) -> Result<Board, Memory>
    requires width { width ≤ 2 ^ 16 }
    requires vertices { vertices ≡ length (concat (rows_of rows.now)) }
    requires some { 0 < vertices }
    requires fits { vertices ≤ most_vertices }
    ensures board { IfOk result (IsLaidOut (S.leads shape.now) width (rows_of rows.now)) }
    ensures width { IfOk result (HasWidth width) }
{
    let mut first = Vec::with_capacity(alloc, vertices)?;
    let mut table = Vec::with_capacity(alloc, vertices * width)?;
    let mut above = 0;
    for (r, row) in rows.iter().enumerate() {
        let here = row.len();
        let site = Site {
            start: first.len(),
            above,
            here,
            below: cells_in(rows, r + 1),
            cell: 0,
        };
        push_row(&mut table, shape, width, site)?;
        first.extend_from_slice(row)?;
        above = here;
    }
    Ok(Board::new(first, width, table))
}
