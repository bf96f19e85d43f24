//! A walk over words that shows what must come at each place.

use crate::kinds::Needed;
use rbg_macro::{Symbol, TokenKind};
use std::alloc::{AllocError, Global};

/// What the words inside brackets are.
#[derive(Clone, Copy, PartialEq, Eq)]
pub(crate) enum Inside {
    /// Items of rules.
    Rules,
    /// Pieces, of an on, an off or a row of a board.
    Pieces,
    /// A list of assignments, before a `=`.
    Assigned,
    /// A list of assignments, after a `=`.
    Value,
    /// A comparison, or parentheses in arithmetic.
    Sum,
    /// The edges of a vertex.
    Edges,
    /// What isn't shown: the body of a macro, and the arguments of a call.
    Anything,
}

/// A walk over words: the brackets that are open, and the word before.
pub(crate) struct Walk {
    open: Vec<Inside>,
    outside: Inside,
    last: Option<TokenKind>,
    /// Whether the word before is the name of a macro with parameters.
    is_call: bool,
}

/// Written by hand: dropping a walk is then one call in the proofs of its owners, not a step for each part.
impl Drop for Walk {
    fn drop(self) {
        let Walk {
            open: _,
            outside: _,
            last: _,
            is_call: _,
        } = self;
    }
}

impl Walk {
    /// A walk that begins outside of brackets.
    pub fn new(alloc: Global, outside: Inside) -> Walk {
        Walk {
            open: Vec::new(alloc),
            outside,
            last: None,
            is_call: false,
        }
    }

    /// What the words are at this point of the walk.
    pub fn inside(&self) -> Inside {
        self.open.last().copied().unwrap_or(self.outside)
    }

    /// How many brackets are open.
    pub fn depth(&self) -> usize {
        self.open.len()
    }

    fn follows(&self, symbol: Symbol) -> bool {
        match self.last {
            Some(kind) => kind.is(symbol),
            None => false,
        }
    }

    /// What a name at this point of the walk must be.
    pub fn needed(&self) -> Needed {
        if self.follows(Symbol::Arrow) {
            return Needed::Player;
        }
        match self.inside() {
            Inside::Rules => Needed::Direction,
            Inside::Pieces => Needed::Piece,
            Inside::Assigned => Needed::Variable,
            Inside::Value | Inside::Sum => Needed::Value,
            Inside::Edges if self.follows(Symbol::Colon) => Needed::Vertex,
            Inside::Edges => Needed::Direction,
            Inside::Anything => Needed::Anything,
        }
    }

    /// Passes a word; `next` is the one after it.
    pub fn pass(&mut self, kind: TokenKind, next: Option<TokenKind>) -> Result<(), AllocError> {
        if kind.opens() {
            let inside = self.opened(kind, next);
            self.open.push(inside)?;
        } else if kind.closes() {
            let _closed = self.open.pop();
        } else if kind.is(Symbol::Equals) {
            self.turn(Inside::Assigned, Inside::Value);
        } else if kind.is(Symbol::Comma) {
            self.turn(Inside::Value, Inside::Assigned);
        }
        self.last = Some(kind);
        self.is_call = false;
        Ok(())
    }

    /// Passes the name of a macro with parameters.
    pub fn pass_call(&mut self) {
        self.last = Some(TokenKind::Name);
        self.is_call = true;
    }

    /// What is in the brackets that a word opens, with the one after it.
    fn opened(&self, kind: TokenKind, next: Option<TokenKind>) -> Inside {
        let is_arithmetic = is_symbol(next, Symbol::Dollar);
        if kind.is(Symbol::OpenParenthesis) {
            return self.in_parentheses();
        }
        if kind.is(Symbol::OpenBracket) {
            return if is_arithmetic {
                Inside::Assigned
            } else {
                Inside::Pieces
            };
        }
        if is_arithmetic {
            Inside::Sum
        } else if is_symbol(next, Symbol::Question) || is_symbol(next, Symbol::Exclamation) {
            Inside::Rules
        } else if self.follows(Symbol::CloseBracket) && self.outside == Inside::Edges {
            Inside::Edges
        } else {
            Inside::Pieces
        }
    }

    fn in_parentheses(&self) -> Inside {
        if self.is_call {
            return Inside::Anything;
        }
        match self.inside() {
            Inside::Assigned | Inside::Value | Inside::Sum => Inside::Sum,
            other => other,
        }
    }

    /// Changes what is in the innermost brackets.
    fn turn(&mut self, from: Inside, to: Inside) {
        if self.inside() == from && self.open.pop().is_some() {
            let _kept = self.open.push(to);
        }
    }
}

fn is_symbol(kind: Option<TokenKind>, symbol: Symbol) -> bool {
    match kind {
        Some(kind) => kind.is(symbol),
        None => false,
    }
}
