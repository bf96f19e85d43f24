//! The lists of one array, and what they are for.

use crate::steps::Glance;

/// A list of the array: where it starts and where it ends.
#[derive(Clone, Copy, Drop)]
pub(crate) struct Span {
    pub start: usize,
    pub end: usize,
}

/// How the words of a level begin.
#[derive(Clone, Copy, Drop)]
pub(crate) struct Opening {
    pub first: Span,
    pub may_be_empty: bool,
}

/// What comes after a position, and what is known at once of its action.
#[derive(Clone, Copy, Drop)]
pub(crate) struct Node {
    pub next: Span,
    pub may_end: bool,
    pub glance: Glance,
}

impl Span {
    pub(crate) const EMPTY: Span = Span { start: 0, end: 0 };
}

impl Opening {
    /// The opening of a position without a pattern: its inside has no words.
    pub(crate) const NONE: Opening = Opening {
        first: Span::EMPTY,
        may_be_empty: false,
    };
}

impl Node {
    /// The node of a position that isn't in the rules.
    pub(crate) const NONE: Node = Node {
        next: Span::EMPTY,
        may_end: false,
        glance: Glance::Unknown,
    };
}
