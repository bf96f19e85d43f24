//! The lines of a board: where each direction leads.

use rbg_base::{Direction, Memory, Vertex};
use rbg_board::Board;
use rbg_rules::Game;
use rbg_wire::put_number;

/// Appends a line for each direction: where it leads from each vertex, or `-`.
pub(crate) fn push_edges(game: &Game, out: &mut Vec<u8>) -> Result<(), Memory> {
    for index in 0..game.directions() {
        push_ends(game.board(), index as Direction, out)?;
    }
    Ok(())
}

fn push_ends(board: &Board, direction: Direction, out: &mut Vec<u8>) -> Result<(), Memory> {
    out.extend_from_slice(b"edges")?;
    for vertex in 0..board.len() {
        push_end(board.step(vertex as Vertex, direction), out)?;
    }
    out.extend_from_slice(b"\n")
}

fn push_end(to: Option<Vertex>, out: &mut Vec<u8>) -> Result<(), Memory> {
    match to {
        Some(to) => put_number(b" ", u64::from(to), out),
        None => out.extend_from_slice(b" -"),
    }
}
