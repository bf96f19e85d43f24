//! Boards of Regular Boardgames: the generators that turn a board's description into a graph.
//!
//! A board is a list of vertices, numbered from 0, each with its first piece, and at most one edge for each vertex and
//! direction. Pieces, directions and the names of vertices are numbers here.
#![tactic(auto)]

mod board;
mod directions;
mod error;
mod graphs;
mod hexagons;
pub mod laws;
mod rectangles;
mod rows;

pub use board::{Board, LentBoard, MAX_VERTICES};
pub use error::BoardError;
pub use graphs::{Cell, graph};
pub use hexagons::hexagon;
pub use rectangles::rectangle;
