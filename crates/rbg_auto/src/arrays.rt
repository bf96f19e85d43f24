//! The automaton of a game with all its lists in one array.
ghost use Rattle.std.specs.Prelude.{◌≡◌, length};
ghost use Rattle.rbg_auto.specs.internal.Tables.{IsSpan};

use crate::lent_steps::{LentSteps, Step};
use crate::span::Opening;
use crate::steps::{Expr, Glance, Steps};
use crate::table::Table;
use rbg_base::Position;

/// The steps of a game's rules, with all lists in one array. Equal lists are in it once, and positions after which the
/// rules continue in the same way share one from the start. `compact` also makes a record for each position: where its
/// list is, and what is known at once of its action. A search borrows these records.
pub struct Compact {
    pub(crate) table: Table,
    pub(crate) rules: Opening,
    /// The records of the positions, if they were made.
    pub(crate) prepared: Option<Vec<Step>>,
    ghost begins: { IsSpan (length table.entries.items) rules.first },
}

/// Written by hand: dropping an automaton is then one call in the proofs of its owners, not a step for each part.
impl Drop for Compact {
    fn drop(self) {
        let Compact {
            table: _,
            rules: _,
            prepared: _,
        } = self;
    }
}

impl Compact {
    /// How many entries the array has.
    pub fn entries(&self) -> usize
        ensures { result ≡ length self.now.table.entries.items }
    {
        self.table.entries.len()
    }
}

impl Steps for Compact {
    ghost use Rattle.rbg_auto.specs.internal.Compacts.{IsCompactOf};

    ghost of_rules = { IsCompactOf };

    fn first(&self, expr: Expr) -> &[Position] {
        match expr {
            Expr::Rules => self.table.list(self.rules.first),
            Expr::Inside(position) => self.table.list(self.table.inside(position).first),
        }
    }

    fn next(&self, position: Position) -> &[Position] {
        self.table.list(self.table.node(position).next)
    }

    fn may_end(&self, position: Position) -> bool {
        self.table.node(position).may_end
    }

    fn glance(&self, position: Position) -> Glance {
        self.table.node(position).glance
    }

    fn lend(&self) -> Option<LentSteps<'_>> {
        match &self.prepared {
            Some(steps) => Some(LentSteps {
                steps: steps.as_slice(),
                entries: self.table.entries.as_slice(),
            }),
            None => None,
        }
    }

    fn may_be_empty(&self, expr: Expr) -> bool {
        match expr {
            Expr::Rules => self.rules.may_be_empty,
            Expr::Inside(position) => self.table.inside(position).may_be_empty,
        }
    }
}
