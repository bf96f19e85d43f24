//! Brackets of a text: the ones that stay open, and the calls of macros.

use rbg_lint::{before_first, count_names};
use rbg_macro::{Symbol, Token};

/// The last opening bracket of these tokens that isn't closed among them.
pub(crate) fn open_bracket<'a>(tokens: &'a [Token<'a>]) -> Option<Token<'a>> {
    let mut closed = 0usize;
    for index in (0..tokens.len()).rev() {
        let from = tokens.get(index..).unwrap_or(&[]);
        if stays_open(from, &mut closed) {
            return from.first().copied();
        }
    }
    None
}

/// Whether the first token opens a bracket that isn't closed, where so many that are closed after it weren't opened yet.
/// Counts it among these.
pub(crate) fn stays_open(tokens: &[Token<'_>], closed: &mut usize) -> bool {
    match tokens.first() {
        Some(token) if token.kind.closes() => {
            *closed = closed.saturating_add(1);
            false
        }
        Some(token) if token.kind.opens() => {
            let stays_open = *closed == 0;
            *closed = closed.saturating_sub(1);
            stays_open
        }
        _ => false,
    }
}

/// What follows the name of a macro.
#[derive(Clone, Copy)]
pub(crate) enum CallForm {
    /// No `(`.
    NoParenthesis,
    /// A `(` that isn't closed by a `)`.
    Open,
    /// So many arguments.
    Arguments(usize),
}

/// What the tokens after the name of a macro are to its call.
pub(crate) fn call_form(tokens: &[Token<'_>]) -> CallForm {
    match tokens {
        [first, inside @ ..] if first.is(Symbol::OpenParenthesis) => form_inside(inside),
        _ => CallForm::NoParenthesis,
    }
}

fn form_inside(inside: &[Token<'_>]) -> CallForm {
    let mut further = 0usize;
    let mut count = 1usize;
    for token in inside {
        if token.kind.opens() {
            further = further.saturating_add(1);
        } else if token.kind.closes() {
            if further == 0 {
                return if token.is(Symbol::CloseParenthesis) {
                    CallForm::Arguments(count)
                } else {
                    CallForm::Open
                };
            }
            further -= 1;
        } else if further == 0 && token.is(Symbol::Semicolon) {
            count = count.saturating_add(1);
        } else if token.is(Symbol::Hash) {
            return CallForm::Open;
        }
    }
    CallForm::Open
}

/// How many parameters the head of a macro has after its name.
pub(crate) fn parameter_count(tokens: &[Token<'_>]) -> usize {
    count_names(before_first(tokens, Symbol::Equals))
}
