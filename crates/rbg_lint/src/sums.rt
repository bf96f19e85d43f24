//! Sums that a macro puts into a sequence without parentheses, so that they take in what is around its call.

use crate::diagnostic::Diagnostic;
use crate::look::{Look, new_warning};
use crate::message_writer::MessageWriter;
use crate::signs::is_like_repetition;
use crate::stars::{is_rule, place_at};
use rbg_macro::Symbol;
use std::alloc::{AllocError, Global};

/// Adds each call of a macro whose `+` is a choice between more than what the macro puts. A `+` that is written like a
/// repetition has a warning of its own.
pub(crate) fn push_sums(
    alloc: Global,
    look: Look<'_>,
    found: &mut Vec<Diagnostic>,
) -> Result<(), AllocError> {
    for (index, token) in look.flat.iter().enumerate() {
        if token.is(Symbol::Plus)
            && let Some(name) = open_call(look, index)
        {
            push_sum(alloc, look, name, found)?;
        }
    }
    Ok(())
}

/// The offset of the name of the call that puts a `+` outside brackets, if an item of the same sequence is before or after
/// what the call puts.
fn open_call(look: Look<'_>, plus: usize) -> Option<usize> {
    let origin = look.origin(plus)?;
    let call = look.unrolled.call_of(origin)?;
    if !is_rule(look.flat, plus) || is_like_repetition(look.text, origin.at) {
        return None;
    }
    let first = first_of_call(look, plus, call.call, call.place)?;
    let last = last_of_call(look, plus, call.call, call.place)?;
    let before = first.checked_sub(1)?;
    let after = last.saturating_add(1);
    let is_beside = ends_item(look, before) && is_near(look, before, call.call)
        || begins_item(look, after) && is_near(look, after, call.call);
    if is_beside { Some(call.place) } else { None }
}

/// The index of the first token of a call, if no bracket of it is open before a token of it.
fn first_of_call(look: Look<'_>, from: usize, level: Option<usize>, name: usize) -> Option<usize> {
    let mut open = 0usize;
    for index in (0..from).rev() {
        let token = look.flat.get(index)?;
        if place_at(look, index, level) != Some(name) {
            return Some(index.saturating_add(1));
        }
        if token.kind.closes() {
            open = open.saturating_add(1);
        } else if token.kind.opens() {
            open = open.checked_sub(1)?;
        }
    }
    None
}

/// The index of the last token of a call, if no bracket of it is closed after a token of it that wasn't opened there.
fn last_of_call(look: Look<'_>, from: usize, level: Option<usize>, name: usize) -> Option<usize> {
    let mut open = 0usize;
    let mut last = from;
    for index in from.saturating_add(1)..look.flat.len() {
        let token = look.flat.get(index)?;
        if place_at(look, index, level) != Some(name) {
            return Some(last);
        }
        if token.kind.opens() {
            open = open.saturating_add(1);
        } else if token.kind.closes() {
            open = open.checked_sub(1)?;
        }
        last = index;
    }
    Some(last)
}

/// Whether a token is in the body that the call has put, and not around it by a further call.
fn is_near(look: Look<'_>, index: usize, level: Option<usize>) -> bool {
    place_at(look, index, level).is_some()
}

/// Whether an item of a sequence ends with the token at an index.
fn ends_item(look: Look<'_>, index: usize) -> bool {
    match look.flat.get(index) {
        Some(token) => token.kind.is_name()
            || token.kind.closes()
            || token.is(Symbol::Star)
            || token.is(Symbol::DoubleArrow),
        None => false,
    }
}

/// Whether an item of a sequence begins with the token at an index.
fn begins_item(look: Look<'_>, index: usize) -> bool {
    match look.flat.get(index) {
        Some(token) => {
            token.kind.is_name()
                || token.kind.opens()
                || token.is(Symbol::Arrow)
                || token.is(Symbol::DoubleArrow)
        }
        None => false,
    }
}

/// Adds that the sum of a call takes in what is around it.
fn push_sum(
    alloc: Global,
    look: Look<'_>,
    name: usize,
    found: &mut Vec<Diagnostic>,
) -> Result<(), AllocError> {
    let Some(token) = look.token_at(name) else {
        return Ok(());
    };
    let Some(mut warning) = new_warning(alloc, found, "OpenSum", token) else {
        return Ok(());
    };
    let mut writer = MessageWriter::new(alloc, &mut warning.message);
    writer.named(
        "the `+` that ",
        token.text,
        " puts here is a choice between all",
    );
    writer.text(" that is before it and all that is after it: put the name in parentheses");
    writer.end()?;
    found.push(warning)?;
    Ok(())
}
