//! What may come at a place.

use crate::analysis::{Analysis, Role, Thing};
use crate::definitions::{Definition, SECTIONS, definition_around};
use crate::kinds::{Kind, Needed};
use crate::walk::{Inside, Walk};
use crate::words::{Word, count_up_to, is_word};
use rbg_macro::{SectionKind, Symbol, TokenKind};
use std::alloc::{AllocError, Global};

/// The generators of boards.
const GENERATORS: [&str; 3] = ["rectangle", "hexagon", "graph"];

/// The kind of something that may come next.
#[derive(Clone, Copy, PartialEq, Eq)]
pub(crate) enum CompletionKind {
    Section,
    Generator,
    Macro,
    Parameter,
    Direction,
    Piece,
    Player,
    Variable,
    Vertex,
}

/// Something that may come next.
#[derive(Clone, Copy)]
pub(crate) struct Completion<'a> {
    pub kind: CompletionKind,
    pub name: &'a [u8],
}

/// A place in a text.
#[derive(Clone, Copy)]
struct Place<'a> {
    analysis: &'a Analysis<'a>,
    /// How many words are before it. The name that is being typed there isn't one of them.
    before: usize,
}

/// What may come at an offset.
pub(crate) fn completions<'a>(
    alloc: Global,
    analysis: &'a Analysis<'a>,
    at: usize,
) -> Result<Vec<Completion<'a>>, AllocError> {
    let place = Place {
        analysis,
        before: words_before(&analysis.words, at),
    };
    let mut found = Vec::new(alloc);
    push_completions(alloc, place, &mut found)?;
    Ok(found)
}

/// How many words are before an offset. A name that goes up to the offset or beyond isn't counted.
fn words_before(words: &[Word], at: usize) -> usize {
    let count = count_up_to(words, at.saturating_sub(1));
    let last = count.saturating_sub(1);
    match words.get(last) {
        Some(word) if word.kind.is_name() && word.span.end >= at && word.span.start < at => last,
        _ => count,
    }
}

fn push_completions<'a>(
    alloc: Global,
    place: Place<'a>,
    found: &mut Vec<Completion<'a>>,
) -> Result<(), AllocError> {
    let words = place.analysis.words.as_slice();
    let last = place.before.saturating_sub(1);
    if place.before > 0 && is_word(words, last, TokenKind::Symbol(Symbol::Hash)) {
        return push_sections(place, found);
    }
    match definition_around(&place.analysis.definitions, last) {
        Some(definition) if definition.body <= place.before => {
            push_in_body(alloc, place, definition, found)
        }
        _ => Ok(()),
    }
}

/// Adds the sections that the text doesn't have.
fn push_sections<'a>(place: Place<'a>, found: &mut Vec<Completion<'a>>) -> Result<(), AllocError> {
    for section in SECTIONS {
        if !has_section(&place.analysis.definitions, section) {
            found.push(Completion {
                kind: CompletionKind::Section,
                name: section.name().as_bytes(),
            })?;
        }
    }
    Ok(())
}

fn has_section(definitions: &[Definition], section: SectionKind) -> bool {
    for definition in definitions {
        if definition.section == Some(section) {
            return true;
        }
    }
    false
}

/// Adds what may come in the body of a definition.
fn push_in_body<'a>(
    alloc: Global,
    place: Place<'a>,
    definition: Definition,
    found: &mut Vec<Completion<'a>>,
) -> Result<(), AllocError> {
    if definition.section == Some(SectionKind::Board) && definition.body == place.before {
        return push_generators(found);
    }
    let outside = match definition.section {
        Some(SectionKind::Rules) => Inside::Rules,
        Some(SectionKind::Board) => Inside::Edges,
        Some(SectionKind::Players | SectionKind::Pieces | SectionKind::Variables) => return Ok(()),
        None => Inside::Anything,
    };
    let needed = needed_at(alloc, place, definition, outside)?;
    push_things(place, needed, found)?;
    push_parameters(place, definition, found)?;
    push_macros(place, found)
}

fn push_generators(found: &mut Vec<Completion<'_>>) -> Result<(), AllocError> {
    for generator in GENERATORS {
        found.push(Completion {
            kind: CompletionKind::Generator,
            name: generator.as_bytes(),
        })?;
    }
    Ok(())
}

/// What must come at a place in the body of a definition.
fn needed_at(
    alloc: Global,
    place: Place<'_>,
    definition: Definition,
    outside: Inside,
) -> Result<Needed, AllocError> {
    let mut walk = Walk::new(alloc, outside);
    pass_words(&mut walk, place, definition.body)?;
    Ok(walk.needed())
}

/// Walks over the words from an index up to a place.
fn pass_words(walk: &mut Walk, place: Place<'_>, start: usize) -> Result<(), AllocError> {
    for index in start..place.before {
        if let Some(word) = place.analysis.word(index) {
            if place.analysis.mark(index).role == Role::Called {
                walk.pass_call();
            } else {
                let next = place.analysis.word(index.saturating_add(1));
                walk.pass(word.kind, kind_of(next))?;
            }
        }
    }
    Ok(())
}

fn kind_of(word: Option<Word>) -> Option<TokenKind> {
    Some(word?.kind)
}

/// Adds the things that may come at a place for such a thing.
fn push_things<'a>(
    place: Place<'a>,
    needed: Needed,
    found: &mut Vec<Completion<'a>>,
) -> Result<(), AllocError> {
    for thing in &place.analysis.things {
        if fits(thing.kind, needed) {
            found.push(completion_of(place, *thing))?;
        }
    }
    Ok(())
}

fn completion_of<'a>(place: Place<'a>, thing: Thing) -> Completion<'a> {
    Completion {
        kind: match thing.kind {
            Kind::Direction => CompletionKind::Direction,
            Kind::Piece => CompletionKind::Piece,
            Kind::Player => CompletionKind::Player,
            Kind::Variable => CompletionKind::Variable,
            Kind::Vertex => CompletionKind::Vertex,
        },
        name: place.analysis.bytes(thing.word),
    }
}

/// Whether a thing of a kind may come at a place for such a thing.
fn fits(kind: Kind, needed: Needed) -> bool {
    match needed {
        Needed::Direction => kind == Kind::Direction,
        Needed::Piece => kind == Kind::Piece,
        Needed::Player => kind == Kind::Player,
        Needed::Variable => kind == Kind::Variable || kind == Kind::Player,
        Needed::Value => kind != Kind::Direction && kind != Kind::Vertex,
        Needed::Vertex => kind == Kind::Vertex,
        Needed::Anything => kind != Kind::Vertex,
    }
}

/// Adds the parameters of the macro in whose body a place is.
fn push_parameters<'a>(
    place: Place<'a>,
    definition: Definition,
    found: &mut Vec<Completion<'a>>,
) -> Result<(), AllocError> {
    for index in definition.hash..definition.body {
        if place.analysis.mark(index).role == Role::HeadParameter {
            found.push(Completion {
                kind: CompletionKind::Parameter,
                name: place.analysis.bytes(index),
            })?;
        }
    }
    Ok(())
}

/// Adds the macros.
fn push_macros<'a>(place: Place<'a>, found: &mut Vec<Completion<'a>>) -> Result<(), AllocError> {
    for definition in &place.analysis.definitions {
        if let Some(name) = definition.name
            && definition.section.is_none()
        {
            found.push(Completion {
                kind: CompletionKind::Macro,
                name: place.analysis.bytes(name),
            })?;
        }
    }
    Ok(())
}
