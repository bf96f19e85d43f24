//! One modifier of a move.
ghost use Rattle.std.specs.Prelude.{ℕ};

use crate::{Position, Vertex};
use std::marker::Model;

/// A modifier and the vertex on which it is applied. Contracts see the two numbers.
#[derive(Clone, Copy, Debug, Default, PartialEq, Eq, PartialOrd, Ord, Hash)]
pub struct Pair {
    /// The vertex on which the modifier is applied.
    pub vertex: Vertex,
    /// The position of the modifier in the rules.
    pub position: Position,
}

impl Model for Pair {
    ghost Value = { ℕ × ℕ };

    ghost view = { λ p. (p.vertex, p.position) };

    ghost inverse = { λ p. record { vertex = p.0; position = p.1 } };
}
