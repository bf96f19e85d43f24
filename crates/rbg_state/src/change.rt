//! Changes of a semi-state, and names for the states between them.

use rbg_base::{Piece, Player, Variable, Vertex};
use std::marker::Model;

/// A change of one part of a semi-state.
#[derive(Clone, Copy, PartialEq, Eq)]
pub(crate) enum Change {
    /// Makes a player, or the keeper, the current one.
    Player(Player),
    /// Makes a vertex the current one.
    Vertex(Vertex),
    /// Puts a piece on a vertex.
    Piece { vertex: Vertex, piece: Piece },
    /// Gives a variable a value.
    Value { variable: Variable, value: u32 },
}

/// The name of a state that a semi-state has passed through. A smaller mark names an earlier state.
#[derive(Clone, Copy, Debug, PartialEq, Eq, PartialOrd, Ord)]
pub struct Mark {
    changes: usize,
}

impl Model for Mark {
    ghost use Rattle.std.specs.Prelude.{ℕ};

    ghost Value = { ℕ };

    ghost view = { λ m. m.changes };

    ghost inverse = { λ n. record { changes = n } };
}

impl Mark {
    ghost use Rattle.std.specs.Prelude.{◌≡◌};

    /// The mark of the state after this many changes.
    pub(crate) fn after(changes: usize) -> Mark
        ensures { result ≡ changes }
    {
        Mark { changes }
    }

    /// The number of changes made before the state.
    pub(crate) fn changes(self) -> usize
        ensures { result ≡ self }
    {
        self.changes
    }
}
