//! Two boards, compared.
ghost use Rattle.std.specs.Prelude.{◌≡◌, ◌↔◌, ◌<◌, ◌≤◌, ℕ, IsTrue, length};
ghost use Rattle.rbg_board.specs.Graph.{next};
ghost use Rattle.rbg_position.specs.Same.{IsNarrow};
ghost use Rattle.rbg_position.specs.internal.Parts.{IsBoardWith};

use rbg_base::{Direction, Piece, Vertex};
use rbg_board::Board;

/// Whether a board is another one with these pieces on it when play begins.
pub(crate) fn is_board_with(new: &Board, old: &Board, pieces: &[Piece]) -> bool
    ensures same { IsTrue result → IsBoardWith new.now old.now pieces.now }
    ensures whole { IsNarrow old.now → IsBoardWith new.now old.now pieces.now → IsTrue result }
{
    stand_at_start(new, pieces) && leads_alike(new, old)
}

/// Whether these pieces are on a board when play begins.
fn stand_at_start(board: &Board, pieces: &[Piece]) -> bool
    ensures { IsTrue result ↔ (board.now.first ≡ pieces.now) }
{
    if board.len() != pieces.len() {
        return false;
    }
    for vertex in 0..pieces.len() {
        if board.piece_at_start(vertex as Vertex) != pieces[vertex] {
            return false;
        }
    }
    true
}

/// Whether two boards have the same ways.
fn leads_alike(new: &Board, old: &Board) -> bool
    ensures same { IsTrue result → new.now.ways ≡ old.now.ways }
    ensures whole { IsNarrow old.now → new.now.ways ≡ old.now.ways → IsTrue result }
{
    let width = old.lend().width();
    let count = old.len();
    if count != new.len() {
        return false;
    }
    if width != new.lend().width() {
        return false;
    }
    if width > Direction::MAX as usize {
        return false;
    }
    for vertex in 0..count {
        if !leads_alike_from(new, old, vertex as Vertex, width) {
            return false;
        }
    }
    true
}

/// Whether each direction leads from a vertex to the same one.
fn leads_alike_from(new: &Board, old: &Board, vertex: Vertex, width: usize) -> bool
    requires few { width ≤ 65535 }
    requires new { vertex < length new.now.first }
    requires old { vertex < length old.now.first }
    ensures { IsTrue result ↔ ((d : ℕ) → d < width → next new.now vertex d ≡ next old.now vertex d) }
{
    for index in 0..width {
        let direction = index as Direction;
        if new.step(vertex, direction) != old.step(vertex, direction) {
            return false;
        }
    }
    true
}
