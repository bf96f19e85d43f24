//! A board as a description writes it.

use crate::place::{Place, WAYS, Way};
use rbg_macro::Token;

/// A direction of a board.
#[derive(Clone, Copy)]
pub(crate) struct Direction<'a> {
    pub way: Way,
    pub name: &'a [u8],
}

/// A cell that is there, with its piece.
#[derive(Clone, Copy)]
pub(crate) struct Cell<'a> {
    pub place: Place,
    pub piece: &'a [u8],
}

/// The forms of boards that have rows of cells.
#[derive(Clone, Copy, PartialEq, Eq)]
pub(crate) enum Shape {
    Rectangle,
    Cuboid,
}

impl Shape {
    /// The shape that is named by the first token of a board.
    pub fn of(board: &[Token<'_>]) -> Option<Shape> {
        let name = board.first()?.text;
        if name == b"rectangle".as_slice() {
            Some(Shape::Rectangle)
        } else if name == b"cuboid".as_slice() {
            Some(Shape::Cuboid)
        } else {
            None
        }
    }

    /// The ways of its directions, in the order in which it names them.
    pub fn ways(self) -> &'static [Way] {
        match self {
            Shape::Rectangle => &WAYS[..4],
            Shape::Cuboid => &WAYS,
        }
    }
}

/// A board.
#[derive(Drop)]
pub(crate) struct Board<'a> {
    pub shape: Shape,
    pub directions: Vec<Direction<'a>>,
    pub cells: Vec<Cell<'a>>,
    /// How many cells the first row has, holes included.
    pub width: Option<usize>,
    /// Whether a row lacks a cell, or has another number of cells than the first one.
    pub has_holes: bool,
}
