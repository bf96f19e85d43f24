//! The automaton of a game in its plain form: lists of its own for each position.

use crate::lent_steps::LentSteps;
use crate::steps::{Expr, Glance, Steps};
use rbg_base::Position;

/// What comes after a position, and how the words of its inside begin.
#[derive(Drop)]
pub(crate) struct PlainNode {
    pub next: Vec<Position>,
    pub may_end: bool,
    pub first: Vec<Position>,
    pub may_be_empty: bool,
}

/// The steps of a game's rules, with lists of its own for each position. `Compact` gives the same answers in less
/// memory, and also knows the kinds of the actions. This form doesn't.
pub struct Automaton {
    /// The node of each position. Nothing is laid at position 0.
    pub(crate) nodes: Vec<PlainNode>,
    pub(crate) first: Vec<Position>,
    pub(crate) may_be_empty: bool,
}

/// Written by hand: dropping an automaton is then one call in the proofs of its owners, not a step for each part.
impl Drop for Automaton {
    fn drop(self) {
        let Automaton {
            nodes: _,
            first: _,
            may_be_empty: _,
        } = self;
    }
}

impl Steps for Automaton {
    ghost use Rattle.rbg_auto.specs.internal.PlainNodes.{IsAutomatonOf};

    ghost of_rules = { IsAutomatonOf };

    fn first(&self, expr: Expr) -> &[Position] {
        match expr {
            Expr::Rules => self.first.as_slice(),
            Expr::Inside(position) => match self.nodes.get(position as usize) {
                Some(node) => node.first.as_slice(),
                None => &[],
            },
        }
    }

    fn next(&self, position: Position) -> &[Position] {
        match self.nodes.get(position as usize) {
            Some(node) => node.next.as_slice(),
            None => &[],
        }
    }

    fn may_end(&self, position: Position) -> bool {
        match self.nodes.get(position as usize) {
            Some(node) => node.may_end,
            None => false,
        }
    }

    fn glance(&self, _: Position) -> Glance {
        Glance::Unknown
    }

    fn lend(&self) -> Option<LentSteps<'_>> {
        None
    }

    fn may_be_empty(&self, expr: Expr) -> bool {
        match expr {
            Expr::Rules => self.may_be_empty,
            Expr::Inside(position) => match self.nodes.get(position as usize) {
                Some(node) => node.may_be_empty,
                None => false,
            },
        }
    }
}
