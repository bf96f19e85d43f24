//! The board: the first piece of each vertex, and one flat table of the edges.
ghost use Rattle.std.specs.Prelude.{◌≡◌, ◌<◌, ◌≤◌, ◌*◌, ◌+◌, ℕ, length, slice_get, Some, None, IfSome};
ghost use Rattle.rbg_board.specs.Graph.{next, IsClosed, HasWidth, HasOneWidth};
ghost use Rattle.rbg_board.specs.Limits.{most_vertices};
ghost use Rattle.rbg_board.specs.Table.{graph_of_table, IsTable};

use rbg_base::{Direction, Piece, Vertex};
use std::marker::Model;

/// The maximum number of vertices of a board.
pub const MAX_VERTICES: usize = 4096;

/// A board: a graph whose vertices are numbered from 0, each with its first piece.
pub struct Board {
    first: Vec<Piece>,
    /// The number of entries for each vertex: one for each direction below this number.
    width: usize,
    /// The vertex to which each direction leads: the entry of vertex `v` and direction `d` is at `v * width + d`.
    table: Vec<Option<Vertex>>,
}

impl Model for Board {
    ghost use Rattle.rbg_board.specs.Graph.{Graph};

    ghost Value = { Graph };

    ghost use Rattle.rbg_board.specs.Table.{graph_of_table, IsTable};
    ghost use Rattle.std.specs.Prelude.{length};

    ghost view = { λ b. graph_of_table b.first.items b.width b.table.items };

    ghost invariant = { λ b. IsTable (length b.first.items) b.width b.table.items };
}

/// Written by hand: dropping a board is then one call in the proofs of its owners, not a step for each part.
impl Drop for Board {
    fn drop(self) {
        let Board {
            first: _,
            width: _,
            table: _,
        } = self;
    }
}

impl Board {
    /// The board with these first pieces, and with the edges of a table.
    pub(crate) fn new(first: Vec<Piece>, width: usize, table: Vec<Option<Vertex>>) -> Board
        requires { IsTable (length first.items) width table.items }
        ensures graph { result ≡ graph_of_table first.items width table.items }
        ensures width { HasWidth width result }
    {
        Board {
            first,
            width,
            table,
        }
    }

    /// The number of vertices.
    pub fn len(&self) -> usize
        ensures count { result ≡ length self.now.first }
        ensures some { 0 < result }
        ensures limit { result ≤ most_vertices }
        ensures closed { IsClosed self.now }
        ensures width { HasOneWidth self.now }
    {
        self.first.len()
    }

    /// The piece on a vertex when play begins.
    pub fn piece_at_start(&self, vertex: Vertex) -> Piece
        requires { vertex < length self.now.first }
        ensures { slice_get self.now.first vertex ≡ Some result }
    {
        self.first[vertex as usize]
    }

    /// The same board, lent as slices.
    pub fn lend(&self) -> LentBoard<'_>
        ensures { result ≡ self.now }
    {
        LentBoard {
            first: &self.first,
            width: self.width,
            table: &self.table,
        }
    }

    /// The vertex to which a direction leads, or None if it leads nowhere.
    pub fn step(&self, vertex: Vertex, direction: Direction) -> Option<Vertex>
        requires { vertex < length self.now.first }
        ensures next { result ≡ next self.now vertex direction }
        ensures is_vertex { IfSome result (λ to. to < length self.now.first) }
    {
        self.lend().step(vertex, direction)
    }
}

/// A board that is lent as slices. A loop that takes many steps keeps it as a local, so that the slices need not be
/// looked up at each step.
#[derive(Drop)]
pub struct LentBoard<'a> {
    first: &'a [Piece],
    width: usize,
    table: &'a [Option<Vertex>],
}

impl<'a> Model for LentBoard<'a> {
    ghost use Rattle.rbg_board.specs.Graph.{Graph};

    ghost Value = { Graph };

    ghost use Rattle.rbg_board.specs.Table.{graph_of_table, IsTable};
    ghost use Rattle.std.specs.Prelude.{length};

    ghost view = { λ b. graph_of_table b.first.now b.width b.table.now };

    ghost invariant = { λ b. IsTable (length b.first.now) b.width b.table.now };
}

impl<'a> LentBoard<'a> {
    /// The number of directions for which each vertex has an entry: those below this number.
    #[inline(always)]
    pub fn width(&self) -> usize
        ensures width { HasWidth result self.now }
    {
        self.width
    }

    /// The vertex to which a direction leads, or None if it leads nowhere.
    #[inline(always)]
    pub fn step(&self, vertex: Vertex, direction: Direction) -> Option<Vertex>
        requires { vertex < length self.now.first }
        ensures next { result ≡ next self.now vertex direction }
        ensures is_vertex { IfSome result (λ to. to < length self.now.first) }
    {
        if (direction as usize) < self.width {
            self.step_within(vertex, direction)
        } else {
            None
        }
    }

    /// As `step`, for a direction below the width, which has an entry.
    #[inline(always)]
    pub fn step_within(&self, vertex: Vertex, direction: Direction) -> Option<Vertex>
        requires vertex { vertex < length self.now.first }
        requires direction { (width : ℕ) → HasWidth width self.now → direction < width }
        ensures next { result ≡ next self.now vertex direction }
        ensures is_vertex { IfSome result (λ to. to < length self.now.first) }
    {
        self.table[vertex as usize * self.width + direction as usize]
    }
}
