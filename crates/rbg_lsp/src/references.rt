//! Where a name is declared, and where it means the same.

use crate::analysis::{Analysis, Role};
use crate::definitions::{Definition, definition_around};
use crate::kinds::{Kind, Kinds};
use crate::words::{Span, index_around};
use rbg_macro::SectionKind;
use std::alloc::{AllocError, Global};

/// What a name means.
#[derive(Clone, Copy)]
pub(crate) enum Target {
    Section(SectionKind),
    Macro,
    /// A parameter of this macro.
    Parameter(Definition),
    /// The things of these kinds.
    Things(Kinds),
}

/// A name at a place.
#[derive(Clone, Copy)]
pub(crate) struct Found<'a> {
    pub index: usize,
    pub span: Span,
    pub name: &'a [u8],
    pub target: Target,
}

/// The name at an offset, if it means something.
pub(crate) fn found_at<'a>(analysis: &Analysis<'a>, at: usize) -> Option<Found<'a>> {
    let index = index_around(&analysis.words, at)?;
    let word = analysis.word(index)?;
    if !word.kind.is_name() {
        return None;
    }
    Some(Found {
        index,
        span: word.span,
        name: analysis.bytes(index),
        target: target_of(analysis, index)?,
    })
}

/// What the name means that is the word with this index.
fn target_of(analysis: &Analysis<'_>, index: usize) -> Option<Target> {
    let mark = analysis.mark(index);
    let definition = definition_around(&analysis.definitions, index);
    match mark.role {
        Role::Head => match definition?.section {
            Some(section) => Some(Target::Section(section)),
            None => Some(Target::Macro),
        },
        Role::Replaced | Role::Called => Some(Target::Macro),
        Role::HeadParameter | Role::Parameter => Some(Target::Parameter(definition?)),
        Role::Plain if !mark.used.is_none() => Some(Target::Things(mark.used)),
        Role::Plain if !mark.declared.is_none() => Some(Target::Things(mark.declared)),
        Role::Plain => None,
    }
}

/// Whether the word with this index means the same as a name.
pub(crate) fn is_same(analysis: &Analysis<'_>, found: &Found<'_>, index: usize) -> bool {
    if analysis.bytes(index) != found.name {
        return false;
    }
    let mark = analysis.mark(index);
    match found.target {
        Target::Section(_) => index == found.index,
        Target::Macro => matches!(mark.role, Role::Head | Role::Replaced | Role::Called),
        Target::Parameter(definition) => {
            definition.hash <= index
                && index < definition.end
                && matches!(mark.role, Role::HeadParameter | Role::Parameter)
        }
        Target::Things(kinds) => mark.role == Role::Plain && mark.used.shares(kinds),
    }
}

/// Whether the word with this index, which means the same as a name, declares it.
fn is_declaration(analysis: &Analysis<'_>, found: &Found<'_>, index: usize) -> bool {
    match found.target {
        Target::Section(_) => true,
        Target::Macro => analysis.mark(index).role == Role::Head,
        Target::Parameter(_) => analysis.mark(index).role == Role::HeadParameter,
        Target::Things(kinds) => declares(analysis, kinds, index),
    }
}

/// Whether the word with this index declares a thing of one of these kinds.
fn declares(analysis: &Analysis<'_>, kinds: Kinds, index: usize) -> bool {
    for thing in &analysis.things {
        if thing.word == index && Kinds::of(thing.kind).shares(kinds) {
            return true;
        }
    }
    false
}

/// Which of the places are asked for at which a name means the same.
#[derive(Clone, Copy, PartialEq, Eq)]
enum Wanted {
    Declarations,
    Others,
    All,
}

/// Where the name at an offset is declared.
pub(crate) fn definition_at(
    alloc: Global,
    analysis: &Analysis<'_>,
    at: usize,
) -> Result<Vec<Span>, AllocError> {
    let mut spans = Vec::new(alloc);
    push_places(analysis, at, Wanted::Declarations, &mut spans)?;
    Ok(spans)
}

/// Where a name means the same as at an offset, with its declarations or without.
pub(crate) fn references_at(
    alloc: Global,
    analysis: &Analysis<'_>,
    at: usize,
    with_declarations: bool,
) -> Result<Vec<Span>, AllocError> {
    let wanted = if with_declarations {
        Wanted::All
    } else {
        Wanted::Others
    };
    let mut spans = Vec::new(alloc);
    push_places(analysis, at, wanted, &mut spans)?;
    Ok(spans)
}

/// Adds the places that are asked for of the name at an offset.
fn push_places(
    analysis: &Analysis<'_>,
    at: usize,
    wanted: Wanted,
    spans: &mut Vec<Span>,
) -> Result<(), AllocError> {
    if let Some(found) = found_at(analysis, at) {
        for (index, word) in analysis.words.iter().enumerate() {
            if is_same(analysis, &found, index) && is_wanted(analysis, &found, wanted, index) {
                spans.push(word.span)?;
            }
        }
    }
    Ok(())
}

fn is_wanted(analysis: &Analysis<'_>, found: &Found<'_>, wanted: Wanted, index: usize) -> bool {
    match wanted {
        Wanted::Declarations => is_declaration(analysis, found, index),
        Wanted::Others => !is_declaration(analysis, found, index),
        Wanted::All => true,
    }
}

/// The word for a thing of this kind.
pub(crate) fn kind_word(kind: Kind) -> &'static str {
    match kind {
        Kind::Direction => "direction",
        Kind::Piece => "piece",
        Kind::Player => "player",
        Kind::Variable => "variable",
        Kind::Vertex => "vertex",
    }
}
