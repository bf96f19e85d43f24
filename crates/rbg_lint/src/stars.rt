//! Stars that bind the last one of several items that a macro or an argument puts before them.

use crate::among::is_at;
use crate::diagnostic::Diagnostic;
use crate::look::{Look, new_warning};
use crate::message_writer::MessageWriter;
use crate::names::after_head;
use crate::unrolled::TokenOrigin;
use rbg_macro::{Symbol, Token};
use std::alloc::{AllocError, Global};

/// The maximum number of nested calls that are followed.
const MOST_CALLS: usize = 70;

/// Adds each star that binds the last one of several items that one name of its body puts.
pub(crate) fn push_stars(
    alloc: Global,
    look: Look<'_>,
    found: &mut Vec<Diagnostic>,
) -> Result<(), AllocError> {
    for (index, token) in look.flat.iter().enumerate() {
        if token.is(Symbol::Star)
            && let Some(name) = name_before(look, index)
        {
            push_star(alloc, look, name, found)?;
        }
    }
    Ok(())
}

/// The offset of the name of which a star binds only the last one of several items.
fn name_before(look: Look<'_>, star: usize) -> Option<usize> {
    let level = look.origin(star)?.call;
    let last = star.checked_sub(1)?;
    let name = place_at(look, last, level)?;
    let first = item_start(look.flat, last);
    let before = first.checked_sub(1)?;
    let is_bound_alone = place_at(look, before, level)? == name
        && !is_own(look, last, name)
        && is_rule(look.flat, star);
    if is_bound_alone && !is_operator(look.flat, before) {
        Some(name)
    } else {
        None
    }
}

/// Whether a token is written in the text itself at an offset, and not put there by a call.
fn is_own(look: Look<'_>, index: usize, at: usize) -> bool {
    match look.origin(index) {
        Some(origin) => origin.at == at,
        None => true,
    }
}

/// The offset of a token, or of the call from which it comes, in the body that the call `level` has put. Returns None
/// if it isn't in that body.
pub(crate) fn place_at(look: Look<'_>, index: usize, level: Option<usize>) -> Option<usize> {
    let mut origin: TokenOrigin = look.origin(index)?;
    for _ in 0..MOST_CALLS {
        if origin.call == level {
            return Some(origin.place);
        }
        origin = look.unrolled.call_of(origin)?;
    }
    None
}

/// The index of the first token of the item that ends at an index.
fn item_start(tokens: &[Token<'_>], last: usize) -> usize {
    let mut open = 0usize;
    for index in (0..=last).rev() {
        if let Some(token) = tokens.get(index) {
            if token.kind.closes() {
                open = open.saturating_add(1);
            } else if token.kind.opens() {
                open = open.saturating_sub(1);
            }
            if open == 0 {
                return index;
            }
        }
    }
    last
}

/// Whether the item after a token is no part of a sequence with it: the token is a `+`, an opening bracket or an arrow.
fn is_operator(tokens: &[Token<'_>], index: usize) -> bool {
    match tokens.get(index) {
        Some(token) => token.is(Symbol::Arrow) || token.kind.opens(),
        None => true,
    }
}

/// Whether a star is one of rules, and no product.
pub(crate) fn is_rule(tokens: &[Token<'_>], star: usize) -> bool {
    let rules = after_head(tokens, b"rules");
    let (Some(first), Some(token)) = (rules.first(), tokens.get(star)) else {
        return false;
    };
    first.at < token.at && !is_in_arithmetic(tokens, star)
}

/// Whether a `$` follows the innermost bracket, other than a parenthesis, that is open at an index.
fn is_in_arithmetic(tokens: &[Token<'_>], index: usize) -> bool {
    let mut closed = 0usize;
    for place in (0..index).rev() {
        if let Some(token) = tokens.get(place) {
            if token.is(Symbol::CloseBracket) || token.is(Symbol::CloseBrace) {
                closed = closed.saturating_add(1);
            } else if token.is(Symbol::OpenBracket) || token.is(Symbol::OpenBrace) {
                if closed == 0 {
                    return is_at(tokens, place.saturating_add(1), Symbol::Dollar);
                }
                closed -= 1;
            } else if token.is(Symbol::Hash) {
                return false;
            }
        }
    }
    false
}

/// Adds that a star binds only the last item of what the name at an offset puts.
fn push_star(
    alloc: Global,
    look: Look<'_>,
    name: usize,
    found: &mut Vec<Diagnostic>,
) -> Result<(), AllocError> {
    let Some(token) = look.token_at(name) else {
        return Ok(());
    };
    let Some(mut warning) = new_warning(alloc, found, "StarBindsLast", token) else {
        return Ok(());
    };
    let mut writer = MessageWriter::new(alloc, &mut warning.message);
    writer.named(
        "the star after ",
        token.text,
        " binds only the last item of what",
    );
    writer.text(" it puts here: put it in parentheses");
    writer.end()?;
    found.push(warning)?;
    Ok(())
}
