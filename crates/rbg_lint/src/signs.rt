//! Rules that are never reached, and a `+` that is written like a repetition.

use crate::diagnostic::Diagnostic;
use crate::look::{Look, new_warning};
use crate::message_writer::MessageWriter;
use crate::stars::is_rule;
use rbg_macro::{Symbol, Token};
use std::alloc::{AllocError, Global};

/// Adds the warnings on signs in the sections, with macros expanded.
pub(crate) fn push_signs(
    alloc: Global,
    look: Look<'_>,
    found: &mut Vec<Diagnostic>,
) -> Result<(), AllocError> {
    for index in 0..look.flat.len() {
        if let Some(words) = sign_words(look, index) {
            push_sign(alloc, look, index, words, found)?;
        }
    }
    Ok(())
}

/// The code of a warning, and its message.
type Words = (&'static str, &'static str);

/// The warning on the tokens from an index on.
fn sign_words(look: Look<'_>, index: usize) -> Option<Words> {
    match look.flat.get(index..)? {
        [open, close, next, ..]
            if open.is(Symbol::OpenBrace) && close.is(Symbol::CloseBrace) && begins_item(next) => {
            Some(("Unreached", "nothing after `{}` is ever reached"))
        }
        [_, plus, ..] if plus.is(Symbol::Plus) => repetition_words(look, index),
        _ => None,
    }
}

/// Whether an item of rules begins with a token.
fn begins_item(token: &Token<'_>) -> bool {
    token.kind.is_name()
        || token.kind.opens()
        || token.is(Symbol::Arrow)
        || token.is(Symbol::DoubleArrow)
}

/// The warning on the `+` after the token with an index, if it is written like a repetition.
fn repetition_words(look: Look<'_>, index: usize) -> Option<Words> {
    let plus = index.saturating_add(1);
    let is_repetition = is_like_repetition(look.text, look.origin(plus)?.at);
    if is_repetition && is_rule(look.flat, plus) {
        Some((
            "Plus",
            "`+` is a choice between what is before it and after it: once or more is `x x*`",
        ))
    } else {
        None
    }
}

/// Whether the `+` at an offset is written like a repetition: next to a name or a closing parenthesis, and not next to what
/// follows.
pub(crate) fn is_like_repetition(text: &[u8], plus: usize) -> bool {
    let Some(last) = plus.checked_sub(1) else {
        return false;
    };
    match (text.get(last), text.get(plus.saturating_add(1))) {
        (Some(before), Some(after)) => is_end(*before) && after.is_ascii_whitespace(),
        _ => false,
    }
}

/// Whether a name or what is in parentheses may end with a byte.
fn is_end(byte: u8) -> bool {
    byte == b')' || byte.is_ascii_alphanumeric()
}

/// Adds a warning on the token with an index, or on the one after it for a `+`.
fn push_sign(
    alloc: Global,
    look: Look<'_>,
    index: usize,
    words: Words,
    found: &mut Vec<Diagnostic>,
) -> Result<(), AllocError> {
    let (code, text) = words;
    let shown = if code == "Plus" {
        index.saturating_add(1)
    } else {
        index
    };
    let Some(token) = text_token(look, shown) else {
        return Ok(());
    };
    let Some(mut warning) = new_warning(alloc, found, code, token) else {
        return Ok(());
    };
    let mut writer = MessageWriter::new(alloc, &mut warning.message);
    writer.text(text);
    writer.end()?;
    found.push(warning)?;
    Ok(())
}

/// The token of the text from which the one with an index comes.
fn text_token<'a>(look: Look<'a>, index: usize) -> Option<Token<'a>> {
    look.token_at(look.origin(index)?.at)
}
