//! Tokens while macros are expanded.

use crate::unrolled::TokenOrigin;
use rbg_macro::{Token, TokenKind};
use std::alloc::{AllocError, Global};

/// A token while macros are expanded.
#[derive(Clone, Copy)]
pub(crate) struct Item {
    /// The offset of its bytes among those of the text and of joined tokens.
    pub start: usize,
    pub len: usize,
    pub kind: TokenKind,
    pub origin: TokenOrigin,
}

impl Item {
    /// A token of a section, or of a macro's body that a call put.
    pub fn of(token: &Token<'_>, call: Option<usize>) -> Item {
        Item {
            start: token.at,
            len: token.text.len(),
            kind: token.kind,
            origin: TokenOrigin {
                at: token.at,
                place: token.at,
                call,
            },
        }
    }

    /// The token as an argument in place of a parameter, in a macro's body that a call put.
    pub fn placed(self, parameter: &Token<'_>, call: usize) -> Item {
        Item {
            start: self.start,
            len: self.len,
            kind: self.kind,
            origin: TokenOrigin {
                at: self.origin.at,
                place: parameter.at,
                call: Some(call),
            },
        }
    }
}

/// The arguments of a call.
#[derive(Drop)]
pub(crate) struct Arguments {
    items: Vec<Item>,
    /// Where each argument ends among the items.
    ends: Vec<usize>,
}

impl Arguments {
    /// No argument.
    pub fn new(alloc: Global) -> Arguments {
        Arguments {
            items: Vec::new(alloc),
            ends: Vec::new(alloc),
        }
    }

    /// Adds a token to the last argument.
    pub fn push(&mut self, item: Item) -> Result<(), AllocError> {
        self.items.push(item)?;
        Ok(())
    }

    /// Ends an argument.
    pub fn cut(&mut self) -> Result<(), AllocError> {
        self.ends.push(self.items.len())?;
        Ok(())
    }

    /// The argument with this index, empty if there is none.
    pub fn get(&self, index: usize) -> &[Item] {
        let start = match index.checked_sub(1) {
            Some(before) => self.ends.get(before).copied().unwrap_or(0),
            None => 0,
        };
        let end = self.ends.get(index).copied().unwrap_or(start);
        self.items.get(start..end).unwrap_or(&[])
    }
}
