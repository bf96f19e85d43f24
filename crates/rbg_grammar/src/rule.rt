//! The rules as they are spelt: a regular expression over actions.

use crate::expression::Expression;
use crate::names::Name;
use rbg_base::Relation;

/// A regular expression over actions.
#[cycle(rule)]
pub enum ParsedRule<'a> {
    Act(ParsedAction<'a>),
    /// A sequence of at least two parts, or an assignment list of at least two assignments.
    Then(Vec<ParsedRule<'a>>),
    /// A sum of at least two parts.
    Or(Vec<ParsedRule<'a>>),
    Star(Box<ParsedRule<'a>>),
}

/// Written by hand: dropping a rule is then one call in the proofs of its owners, not a step for each part.
impl Drop for ParsedRule<'_> {
    #[cycle(rule)]
    fn drop(self) {
        match self {
            ParsedRule::Act(_) | ParsedRule::Then(_) | ParsedRule::Or(_) | ParsedRule::Star(_) => {}
        }
    }
}

/// An action of the rules.
#[cycle(rule)]
#[derive(Drop)]
pub enum ParsedAction<'a> {
    /// `up`
    Shift(Name<'a>),
    /// `{x, y}`
    On(Vec<Name<'a>>),
    /// `[x]`
    Off(Name<'a>),
    /// `[$ v = e]`
    Assign {
        variable: Name<'a>,
        value: Expression<'a>,
    },
    /// `{$ e == f}`
    Compare {
        left: Expression<'a>,
        relation: Relation,
        right: Expression<'a>,
    },
    /// `->p` with its player, or `->>` with none, and the offset of the arrow.
    Switch {
        at: usize,
        player: Option<Name<'a>>,
    },
    /// `{? M}`, with the offset of its `{`.
    PositivePattern {
        at: usize,
        rule: Box<ParsedRule<'a>>,
    },
    /// `{! M}`, with the offset of its `{`.
    NegativePattern {
        at: usize,
        rule: Box<ParsedRule<'a>>,
    },
}
