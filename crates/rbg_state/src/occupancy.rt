//! The piece on each vertex of a board, with a row of vertices for each piece.
ghost use Rattle.std.specs.Prelude.{◌≡◌, ◌+◌, ◌*◌, ◌-◌, ◌<◌, ◌^◌, ◌==◌, [], Some, length, count_by, slice_get, slice_set, IfOk, IfSome, OnErr};
ghost use Rattle.rbg_state.specs.Rows.{IsWordOf};

use crate::rows::Rows;
use rbg_base::{Memory, Piece, Vertex};
use rbg_board::Board;
use std::alloc::Global;
use std::marker::Model;
use std::mem::replace;

/// The piece on each vertex.
#[derive(Drop)]
pub(crate) struct Occupancy {
    pieces: Vec<Piece>,
    /// The vertices on which each piece of the game is.
    rows: Rows,
}

impl Model for Occupancy {
    ghost use Rattle.std.specs.Prelude.{List, ℕ};

    ghost Value = { List ℕ };

    ghost view = { λ o. o.pieces.items };

    ghost use Rattle.std.specs.Prelude.{◌≤◌, ◌*◌, length};
    ghost use Rattle.rbg_state.specs.Rows.{AreRows};

    ghost invariant = { λ o. AreRows o.pieces.items (length o.pieces.items) o.rows.columns o.rows.words.items
        × (length o.pieces.items ≤ o.rows.columns * 64) };
}

impl Occupancy {
    /// The pieces on a board when play begins, with a row for each of the first `kinds` pieces.
    pub(crate) fn start(alloc: Global, board: &Board, kinds: usize) -> Result<Occupancy, Memory>
        ensures { IfOk result (λ occupancy. occupancy ≡ board.now.first) }
    {
        let pieces = pieces_at_start(alloc, board)?;
        Occupancy::of(alloc, pieces, kinds)
    }

    /// These pieces, with a row for each of the first `kinds` pieces.
    pub(crate) fn of(alloc: Global, pieces: Vec<Piece>, kinds: usize) -> Result<Occupancy, Memory>
        requires few { length pieces.items < 2 ^ 16 }
        ensures { IfOk result (λ occupancy. occupancy ≡ pieces.items) }
    {
        let rows = Rows::of(alloc, &pieces, kinds)?;
        Ok(Occupancy { pieces, rows })
    }

    /// No pieces.
    pub(crate) fn empty(alloc: Global) -> Occupancy {
        Occupancy {
            pieces: Vec::new(alloc),
            rows: Rows::empty(alloc),
        }
    }

    pub(crate) fn try_clone(&self) -> Result<Occupancy, Memory>
        ensures { IfOk result (λ copy. copy ≡ self.now) }
    {
        Ok(Occupancy {
            pieces: self.pieces.clone()?,
            rows: self.rows.try_clone()?,
        })
    }

    /// Becomes a copy of another one. Allocates only if its buffers have no room.
    pub(crate) fn copy_from(&mut self, other: &Occupancy) -> Result<(), Memory>
        ensures { IfOk result (λ _. self.new ≡ other.now) }
    {
        if self.pieces.len() == other.pieces.len() && self.rows.are_as_many(&other.rows) {
            self.pieces.copy_from_slice(&other.pieces);
            self.rows.copy_over(&other.rows);
            return Ok(());
        }
        // With no rows nothing is wrong, even if memory is refused below.
        self.rows.clear_for(&other.rows);
        refill(&mut self.pieces, &other.pieces)?;
        self.rows.fill(&other.rows)
    }

    /// The piece on each vertex.
    pub(crate) fn pieces(&self) -> &[Piece]
        ensures { result.now ≡ self.now }
    {
        &self.pieces
    }

    /// How many vertices hold a piece.
    pub(crate) fn count(&self, piece: Piece) -> usize
        ensures { result ≡ count_by (λ x. x == piece) self.now }
    {
        match self.rows.count(piece) {
            Some(count) => count,
            None => counted(&self.pieces, piece),
        }
    }

    /// A word of the row of a piece, if it has a row.
    #[inline(always)]
    pub(crate) fn row_word(&self, piece: Piece, column: usize) -> Option<u64>
        requires { column * 64 < length self.now }
        ensures { IfSome result (IsWordOf self.now piece column) }
    {
        self.rows.row_word(piece, column)
    }

    /// Puts a piece on a vertex, and returns the piece that was on it.
    pub(crate) fn put(&mut self, vertex: Vertex, piece: Piece) -> Piece
        requires vertex { vertex < length self.old }
        ensures put { self.new ≡ slice_set self.old vertex piece }
        ensures replaced { slice_get self.old vertex ≡ Some result }
    {
        let replaced = replace(&mut self.pieces[vertex as usize], piece);
        self.rows.change(replaced, vertex, false);
        self.rows.change(piece, vertex, true);
        replaced
    }
}

/// The pieces on a board when play begins.
fn pieces_at_start(alloc: Global, board: &Board) -> Result<Vec<Piece>, Memory>
    ensures pieces { IfOk result (λ pieces. pieces.items ≡ board.now.first) }
    ensures few { length board.now.first < 2 ^ 16 }
{
    let mut pieces = Vec::with_capacity(alloc, board.len())?;
    for vertex in 0..board.len() {
        pieces.push(board.piece_at_start(vertex as Vertex))?;
    }
    Ok(pieces)
}

/// How many of the pieces are this one.
fn counted(pieces: &[Piece], piece: Piece) -> usize
    ensures { result ≡ count_by (λ x. x == piece) pieces.now }
{
    pieces.iter().filter(|other| **other == piece).count()
}

/// Makes these the items of a buffer. Allocates only if it has no room for them.
#[inline(always)]
pub(crate) fn refill<T: Copy + Drop>(buffer: &mut Vec<T>, items: &[T]) -> Result<(), Memory>
    ensures done { IfOk result (λ _. buffer.new.items ≡ items.now) }
    ensures refused { OnErr result (buffer.new.items ≡ []) }
{
    if buffer.len() == items.len() {
        buffer.copy_from_slice(items);
        return Ok(());
    }
    buffer.clear();
    buffer.extend_from_slice(items)
}
