//! The text that is checked, and the warnings on it.

use crate::diagnostic::{Diagnostic, Severity};
use crate::parameters::push_parameters;
use crate::signs::push_signs;
use crate::stars::push_stars;
use crate::sums::push_sums;
use crate::unrolled::{TokenOrigin, Unrolled};
use rbg_macro::Token;
use std::alloc::{AllocError, Global};

/// A text, and the same text with its macros expanded.
#[derive(Clone, Copy)]
pub struct Look<'a> {
    pub text: &'a [u8],
    /// The tokens of the text.
    pub tokens: &'a [Token<'a>],
    pub unrolled: &'a Unrolled,
    /// The tokens of the text of `unrolled`.
    pub flat: &'a [Token<'a>],
}

impl<'a> Look<'a> {
    /// Where the token with an index comes from, in the text with macros expanded.
    pub(crate) fn origin(&self, index: usize) -> Option<TokenOrigin> {
        self.unrolled.origin(index)
    }

    /// The token of the text at an offset.
    pub(crate) fn token_at(&self, at: usize) -> Option<Token<'a>> {
        for token in self.tokens {
            if token.at == at {
                return Some(*token);
            }
        }
        None
    }
}

/// Adds the warnings on a text that describes a game.
pub fn push_warnings(
    alloc: Global,
    look: Look<'_>,
    found: &mut Vec<Diagnostic>,
) -> Result<(), AllocError> {
    push_signs(alloc, look, found)?;
    push_stars(alloc, look, found)?;
    push_sums(alloc, look, found)?;
    push_parameters(alloc, look, found)
}

/// A warning of a kind about a token of the text, with an empty message. Returns None if there is one of this kind at
/// its place already.
pub(crate) fn new_warning(
    alloc: Global,
    found: &[Diagnostic],
    code: &'static str,
    token: Token<'_>,
) -> Option<Diagnostic> {
    for other in found {
        if other.start == token.at && other.code == code {
            return None;
        }
    }
    Some(Diagnostic::new(alloc, Severity::Warning, code, token.at, token.text.len()))
}
