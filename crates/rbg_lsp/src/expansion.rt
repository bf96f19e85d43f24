//! The expansion of a text's macros.

use crate::sections::{Body, push_expanded};
use crate::words::Word;
use rbg_lint::{cut, expanded, holds_offset, section_tokens};
use rbg_macro::{SectionKind, Source, Token};
use rbg_warnings::actions;
use std::alloc::{AllocError, Global};

/// Adds the expanded sections of a text. Returns false if its macros can't be expanded.
pub(crate) fn expand_into(
    alloc: Global,
    text: &[u8],
    words: &[Word],
    bodies: &mut Vec<Body>,
) -> Result<bool, AllocError> {
    match source_of(alloc, text)? {
        Some(source) => {
            push_expanded(alloc, text, words, &source, bodies)?;
            Ok(true)
        }
        None => Ok(false),
    }
}

/// The expanded sections of a text, or None if it is refused before that.
pub(crate) fn source_of(alloc: Global, text: &[u8]) -> Result<Option<Source<'_>>, AllocError> {
    match cut(alloc, text)? {
        Some(tokens) => expanded(alloc, &tokens),
        None => Ok(None),
    }
}

/// Adds the positions of the actions to which the word at an offset belongs, if the text's macros can be expanded.
pub(crate) fn push_positions(
    alloc: Global,
    text: &[u8],
    at: usize,
    positions: &mut Vec<usize>,
) -> Result<(), AllocError> {
    match source_of(alloc, text)? {
        Some(source) => push_positions_in(alloc, &source, at, positions),
        None => Ok(()),
    }
}

fn push_positions_in(
    alloc: Global,
    source: &Source<'_>,
    at: usize,
    positions: &mut Vec<usize>,
) -> Result<(), AllocError> {
    let rules = section_tokens(alloc, source, SectionKind::Rules)?;
    let actions = actions(alloc, &rules)?;
    push_positions_among(&actions, at, positions)
}

fn push_positions_among(
    actions: &[&[Token<'_>]],
    at: usize,
    positions: &mut Vec<usize>,
) -> Result<(), AllocError> {
    for (index, action) in actions.iter().enumerate() {
        if holds_offset(action, at) {
            positions.push(index.saturating_add(1))?;
        }
    }
    Ok(())
}
