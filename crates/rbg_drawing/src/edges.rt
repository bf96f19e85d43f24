//! The edges of a board as a list.

use rbg_base::{Direction, Vertex};
use rbg_rules::Game;
use std::alloc::{AllocError, Global};

/// An edge of a board.
#[derive(Clone, Copy)]
pub(crate) struct Edge {
    pub from: usize,
    pub to: usize,
    pub direction: usize,
}

/// All edges, by directions and by the vertices from which they lead.
pub(crate) fn edges_of(alloc: Global, game: &Game) -> Result<Vec<Edge>, AllocError> {
    let mut edges = Vec::new(alloc);
    for direction in 0..game.directions() {
        push_edges(game, direction as Direction, &mut edges)?;
    }
    Ok(edges)
}

fn push_edges(game: &Game, direction: Direction, edges: &mut Vec<Edge>) -> Result<(), AllocError> {
    let board = game.board();
    for from in 0..board.len() {
        if let Some(to) = board.step(from as Vertex, direction) {
            edges.push(Edge {
                from,
                to: to as usize,
                direction: direction as usize,
            })?;
        }
    }
    Ok(())
}
