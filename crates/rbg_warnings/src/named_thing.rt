//! The things of a game that its rules may use.
ghost use Rattle.std.specs.Prelude.{◌≡◌};
ghost use Rattle.rbg_warnings.specs.internal.Kinds.{thing_of};

use rbg_base::{Direction, Piece, Player, Variable};

/// A thing of a game that its rules may use.
#[derive(Clone, Copy, PartialEq, Eq)]
pub enum NamedThing {
    Player { player: Player },
    Piece { piece: Piece },
    Variable { variable: Variable },
    Direction { direction: Direction },
}

/// A kind of things. The things of a kind differ by numbers.
#[derive(Clone, Copy)]
pub(crate) enum Kind {
    Players,
    Pieces,
    Variables,
    Directions,
}

/// The thing of a kind with a number.
pub(crate) fn thing_of(kind: Kind, number: u16) -> NamedThing
    ensures { result ≡ thing_of kind number }
{
    match kind {
        Kind::Players => NamedThing::Player { player: number },
        Kind::Pieces => NamedThing::Piece { piece: number },
        Kind::Variables => NamedThing::Variable { variable: number },
        Kind::Directions => NamedThing::Direction { direction: number },
    }
}
