//! Faults of a description whose macros are written out, where each token has the call that it came from.

use crate::exact::find_place;
use crate::spot::Spot;
use rbg_game::{LoadError, load_with_layout};
use rbg_lint::{TokenOrigin, Unrolled, cut};
use rbg_macro::{Symbol, Token, TokenKind, Tokens};
use rbg_syntax::{Expectation, SyntaxError};
use std::alloc::{AllocError, Global};

/// A description whose macros are written out, with its tokens.
#[derive(Clone, Copy)]
pub(crate) struct Flat<'a> {
    pub unrolled: &'a Unrolled,
    pub tokens: &'a [Token<'a>],
}

/// A fault of such a description, at one of its tokens.
#[derive(Clone, Copy)]
pub(crate) struct Trace<'a> {
    pub flat: Flat<'a>,
    /// The token among those of the description.
    pub spot: Spot<'a>,
    /// Where it comes from, or the parameter if that is shown.
    pub origin: TokenOrigin,
    /// Whether the parameter is shown in whose place the token stands.
    pub is_parameter: bool,
}

/// Why a part of a description is refused, and the offset of the fault there.
#[derive(Clone, Copy)]
pub(crate) struct PartFault {
    pub error: LoadError,
    pub at: usize,
}

/// What stands for a section that is left out.
const STUBS: [(&str, &str); 4] = [
    ("players", "#players=p(0)"),
    ("pieces", "#pieces=p"),
    ("board", "#board=graph(v[p]{})"),
    ("rules", "#rules=->>"),
];

impl<'a> Flat<'a> {
    /// The fault at an offset, if a token stands there.
    pub fn trace(&self, at: usize) -> Option<Trace<'a>> {
        let spot = Spot::find(self.tokens, at)?;
        Some(Trace {
            flat: *self,
            spot,
            origin: self.unrolled.origin(spot.index())?,
            is_parameter: false,
        })
    }

    /// The fault of the sections with these names by themselves.
    pub fn fault_of(
        &self,
        alloc: Global,
        sections: &[&str],
    ) -> Result<Option<PartFault>, AllocError> {
        let text = self.part(alloc, sections)?;
        match cut(alloc, &text)? {
            Some(tokens) => fault_among(alloc, &text, &tokens),
            None => Ok(None),
        }
    }

    /// The text with these sections, each at its place, and with others that have no fault.
    fn part(&self, alloc: Global, sections: &[&str]) -> Result<Vec<u8>, AllocError> {
        let mut text = self.unrolled.text.to_vec(alloc)?;
        let mut is_kept = true;
        for (index, token) in self.tokens.iter().enumerate() {
            if token.is(Symbol::Hash) {
                is_kept = self.is_one_of(index.saturating_add(1), sections);
            }
            if !is_kept {
                blank(&mut text, token);
            }
        }
        push_stubs(&mut text, sections)?;
        Ok(text)
    }

    /// Whether the token with an index has one of these names.
    fn is_one_of(&self, index: usize, names: &[&str]) -> bool {
        match self.tokens.get(index) {
            Some(token) => has_bytes(names, token.text),
            None => false,
        }
    }
}

fn has_bytes(names: &[&str], bytes: &[u8]) -> bool {
    for name in names {
        if name.as_bytes() == bytes {
            return true;
        }
    }
    false
}

/// Puts blanks in place of a token.
fn blank(text: &mut Vec<u8>, token: &Token<'_>) {
    for index in token.at..token.at.saturating_add(token.text.len()) {
        if let Some(byte) = text.get_mut(index) {
            *byte = b' ';
        }
    }
}

/// Adds what stands for each section but these.
fn push_stubs(text: &mut Vec<u8>, sections: &[&str]) -> Result<(), AllocError> {
    for (name, stub) in STUBS {
        if !has_bytes(sections, name.as_bytes()) {
            text.extend_from_slice(stub.as_bytes())?;
        }
    }
    Ok(())
}

/// The fault of a text that was cut into these tokens, if it has one at an offset.
fn fault_among(
    alloc: Global,
    text: &[u8],
    tokens: &Tokens<'_>,
) -> Result<Option<PartFault>, AllocError> {
    match load_with_layout(alloc, tokens).err() {
        Some(error) if error.is_memory() => Err(AllocError),
        Some(error) => fault_at(alloc, text, tokens, error),
        None => Ok(None),
    }
}

/// The fault for which a text is refused, if it is at an offset.
fn fault_at(
    alloc: Global,
    text: &[u8],
    tokens: &Tokens<'_>,
    error: LoadError,
) -> Result<Option<PartFault>, AllocError> {
    match find_place(alloc, &error, text, Some(tokens))? {
        Some(at) => Ok(Some(PartFault { error, at })),
        None => Ok(None),
    }
}

impl<'a> Trace<'a> {
    /// The text of its token.
    pub fn text(&self) -> &'a [u8] {
        self.spot.token.text
    }

    /// What is shown of a fault: the parameter in whose place the token stands if the body of its macro is at fault, since no
    /// name fits there; or else the token.
    pub fn shown(&self, error: &LoadError) -> Trace<'a> {
        let mut shown = *self;
        if is_of_form(error) && self.begins_argument() {
            shown.origin.at = self.origin.place;
            shown.is_parameter = true;
        }
        shown
    }

    /// Whether the token is a name or a number with which an argument begins in place of a parameter.
    fn begins_argument(&self) -> bool {
        let is_symbol = matches!(self.spot.token.kind, TokenKind::Symbol(_));
        if is_symbol || self.origin.place == self.origin.at {
            return false;
        }
        match self.spot.index().checked_sub(1) {
            Some(before) => !self.is_beside(before),
            None => true,
        }
    }

    /// Whether the token with an index comes from the same argument, in place of the same parameter.
    fn is_beside(&self, index: usize) -> bool {
        let unrolled = self.flat.unrolled;
        let mut next = unrolled.origin(index);
        for _ in 0..=unrolled.calls.len() {
            let Some(origin) = next else {
                return false;
            };
            if origin.place == self.origin.place && origin.call == self.origin.call {
                return true;
            }
            next = unrolled.call_of(origin);
        }
        false
    }

    /// Where the bracket comes from that is open at its token.
    pub fn open_bracket(&self) -> Option<Trace<'a>> {
        self.flat.trace(self.spot.open_bracket()?.at)
    }
}

/// Whether a sign is missing, for which no name stands.
fn is_of_form(error: &LoadError) -> bool {
    matches!(
        error,
        LoadError::Syntax(SyntaxError::Expected {
            what: Expectation::Closing
                | Expectation::Equals
                | Expectation::Comma
                | Expectation::Colon
                | Expectation::End,
            ..
        })
    )
}
