//! The checked rules of a game: a regular expression over actions, with numbers in place of names.
ghost use Rattle.std.specs.Prelude.{◌≡◌};
ghost use Rattle.rbg_rules.specs.Translation.{shows_pattern};

use crate::arithmetic::Arithmetic;
use rbg_base::{Direction, Piece, Player, Position, Relation, Variable};

/// A regular expression over positions.
#[cycle(rule)]
pub enum Rule {
    /// The action at this position, which isn't a pattern.
    Act(Position),
    /// The pattern at this position, with its inside. The action at the position is a positive or a negative pattern.
    Pattern {
        position: Position,
        inside: Box<Rule>,
    },
    /// One part after the other.
    Then(Vec<Rule>),
    /// One of the parts.
    Or(Vec<Rule>),
    /// Any number of times.
    Star(Box<Rule>),
}

/// Written by hand: dropping a rule is then one call in the proofs of its owners, not a step for each part.
impl Drop for Rule {
    #[cycle(rule)]
    fn drop(self) {
        match self {
            Rule::Act(_)
            | Rule::Pattern {
                position: _,
                inside: _,
            }
            | Rule::Then(_)
            | Rule::Or(_)
            | Rule::Star(_) => {}
        }
    }
}

/// What is done at a position. Players are numbered from 1, and the keeper is 0; pieces, variables and directions
/// from 0.
#[derive(Debug, Drop)]
pub enum Action {
    Shift {
        direction: Direction,
    },
    On {
        pieces: Vec<Piece>,
    },
    Off {
        piece: Piece,
    },
    Assign {
        variable: Variable,
        value: Arithmetic,
    },
    Compare {
        left: Arithmetic,
        relation: Relation,
        right: Arithmetic,
    },
    Switch {
        player: Player,
    },
    /// The positive pattern: some word of its inside runs.
    Positive,
    /// The negative pattern: no word of its inside runs.
    Negative,
}

impl Action {
    /// Whether the action is a pattern.
    pub fn is_pattern(&self) -> bool
        ensures { result ≡ shows_pattern self.now }
    {
        match self {
            Action::Positive => true,
            Action::Negative => true,
            Action::Shift { .. }
            | Action::On { .. }
            | Action::Off { .. }
            | Action::Assign { .. }
            | Action::Compare { .. }
            | Action::Switch { .. } => false,
        }
    }
}

/// The rules of a game: each action once, by its position, and the tree that has the positions.
#[derive(Drop)]
pub struct Rules {
    pub tree: Rule,
    /// The action of each position, from position 1 on.
    pub actions: Vec<Action>,
}
