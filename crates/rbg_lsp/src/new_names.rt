//! New names for macros, parameters and things.

use crate::analysis::Analysis;
use crate::definitions::section_named;
use crate::expansion::source_of;
use crate::kinds::Kinds;
use crate::references::{Found, Target, found_at, is_same};
use crate::words::{Span, bytes_at};
use rbg_base::is_name;
use rbg_lint::push_tokens;
use rbg_macro::{Source, Symbol, Token, TokenKind};
use std::alloc::{AllocError, Global};

/// The answer to a request for a new name.
#[derive(Drop)]
pub(crate) enum Renaming {
    /// The name is at these places.
    Places(Vec<Span>),
    /// The name can't be given, for this reason.
    Refused(&'static str),
}

/// The place of the name at an offset, if it can be renamed.
pub(crate) fn prepare_rename(analysis: &Analysis<'_>, at: usize) -> Option<Span> {
    let found = found_at(analysis, at)?;
    match found.target {
        Target::Section(_) => None,
        _ => Some(found.span),
    }
}

/// The places at which the name at an offset is replaced by another one. It is refused if the text has the new name
/// already, and if the text with the new name doesn't expand to the same but for the name.
pub(crate) fn rename(
    alloc: Global,
    analysis: &Analysis<'_>,
    at: usize,
    name: &[u8],
) -> Result<Renaming, AllocError> {
    let Some(found) = found_at(analysis, at) else {
        return Ok(Renaming::Refused("there is no name that is declared here"));
    };
    if let Some(reason) = refusal(analysis, &found, name) {
        return Ok(Renaming::Refused(reason));
    }
    let mut places = Vec::new(alloc);
    push_places(analysis, &found, &mut places)?;
    if keeps_meaning(alloc, analysis, &found, &places, name)? {
        Ok(Renaming::Places(places))
    } else {
        Ok(Renaming::Refused("the name is part of names that are joined"))
    }
}

/// Why a name can't be renamed, as far as the words of the text show.
fn refusal(analysis: &Analysis<'_>, found: &Found<'_>, name: &[u8]) -> Option<&'static str> {
    match found.target {
        Target::Section(_) => return Some("a section has its name from the language"),
        Target::Things(kinds) if is_mixed(analysis, found, kinds) => {
            return Some("the name is used for two things at one place");
        }
        _ => {}
    }
    if !is_name(name) {
        return Some("a name is a letter or _, and then letters, digits or _");
    }
    if section_named(name).is_some() {
        return Some("the new name is that of a section");
    }
    if stands_in(analysis, name) {
        return Some("the new name is in the text already");
    }
    None
}

/// Whether the name is used somewhere for things of these kinds and for others.
fn is_mixed(analysis: &Analysis<'_>, found: &Found<'_>, kinds: Kinds) -> bool {
    for index in 0..analysis.words.len() {
        if is_same(analysis, found, index) && !analysis.mark(index).used.are_among(kinds) {
            return true;
        }
    }
    false
}

/// Whether a word of the text is this name.
fn stands_in(analysis: &Analysis<'_>, name: &[u8]) -> bool {
    for word in &analysis.words {
        if bytes_at(analysis.text, word.span) == name {
            return true;
        }
    }
    false
}

/// Adds the places at which a name means the same.
fn push_places(
    analysis: &Analysis<'_>,
    found: &Found<'_>,
    places: &mut Vec<Span>,
) -> Result<(), AllocError> {
    for (index, word) in analysis.words.iter().enumerate() {
        if is_same(analysis, found, index) {
            places.push(word.span)?;
        }
    }
    Ok(())
}

/// Whether the text with another name at these places expands to the same but for the name. If it can't be expanded,
/// whether it joins nothing.
fn keeps_meaning(
    alloc: Global,
    analysis: &Analysis<'_>,
    found: &Found<'_>,
    places: &[Span],
    name: &[u8],
) -> Result<bool, AllocError> {
    let mut edited = Vec::new(alloc);
    push_renamed(analysis.text, places, name, &mut edited)?;
    let Some(old) = source_of(alloc, analysis.text)? else {
        return Ok(!joins(analysis));
    };
    match source_of(alloc, &edited)? {
        Some(new) => are_alike(alloc, &old, &new, [found.name, name]),
        None => Ok(false),
    }
}

/// Whether the text joins tokens.
fn joins(analysis: &Analysis<'_>) -> bool {
    for word in &analysis.words {
        if word.kind == TokenKind::Symbol(Symbol::Tilde) {
            return true;
        }
    }
    false
}

/// Adds the text with another name at these places, which are in order.
fn push_renamed(
    text: &[u8],
    places: &[Span],
    name: &[u8],
    edited: &mut Vec<u8>,
) -> Result<(), AllocError> {
    let mut start = 0usize;
    for place in places {
        let before = Span {
            start,
            end: place.start,
        };
        edited.extend_from_slice(bytes_at(text, before))?;
        edited.extend_from_slice(name)?;
        start = place.end;
    }
    edited.extend_from_slice(text.get(start..).unwrap_or(&[]))
}

/// Whether two expanded texts have the same tokens, but for the second name in place of the first one.
fn are_alike(
    alloc: Global,
    old: &Source<'_>,
    new: &Source<'_>,
    names: [&[u8]; 2],
) -> Result<bool, AllocError> {
    let mut old_tokens = Vec::new(alloc);
    push_all(old, &mut old_tokens)?;
    let mut new_tokens = Vec::new(alloc);
    push_all(new, &mut new_tokens)?;
    Ok(match_but_for(&old_tokens, &new_tokens, names))
}

/// Adds the tokens of all sections.
fn push_all<'a>(source: &'a Source<'_>, tokens: &mut Vec<Token<'a>>) -> Result<(), AllocError> {
    for index in 0..source.len() {
        push_tokens(&source.section(index), tokens)?;
    }
    Ok(())
}

fn match_but_for(old: &[Token<'_>], new: &[Token<'_>], names: [&[u8]; 2]) -> bool {
    let [from, to] = names;
    for (index, token) in old.iter().enumerate() {
        let other = match new.get(index) {
            Some(other) => other.text,
            None => return false,
        };
        let is_renamed = token.text == from && other == to;
        if !is_renamed && token.text != other {
            return false;
        }
    }
    old.len() == new.len()
}
