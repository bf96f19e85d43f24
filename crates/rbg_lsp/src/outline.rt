//! The outline of a text: its sections and macros, and what the sections declare.

use crate::analysis::Analysis;
use crate::definitions::Definition;
use crate::hover::{end_before, start_of};
use crate::kinds::Kind;
use crate::words::{Span, bytes_at};
use std::alloc::{AllocError, Global};

/// What an entry of an outline is.
#[derive(Clone, Copy, PartialEq, Eq)]
pub(crate) enum SymbolKind {
    Section,
    Macro,
    Direction,
    Piece,
    Player,
    Variable,
    Vertex,
}

/// An entry of an outline.
#[derive(Clone, Copy)]
pub(crate) struct DocumentSymbol<'a> {
    pub kind: SymbolKind,
    /// The name, and for a macro its parameters.
    pub name: &'a [u8],
    /// All of the definition.
    pub whole: Span,
    /// The name alone.
    pub at: Span,
    /// Whether it is declared by the last entry before that is a section.
    pub is_inner: bool,
}

/// The sections and macros in order of the text. The things that a section declares follow it.
pub(crate) fn symbols<'a>(
    alloc: Global,
    analysis: &Analysis<'a>,
) -> Result<Vec<DocumentSymbol<'a>>, AllocError> {
    let mut found = Vec::new(alloc);
    push_symbols(analysis, &mut found)?;
    Ok(found)
}

fn push_symbols<'a>(
    analysis: &Analysis<'a>,
    found: &mut Vec<DocumentSymbol<'a>>,
) -> Result<(), AllocError> {
    for definition in &analysis.definitions {
        if let Some(name) = definition.name {
            found.push(symbol_of(analysis, *definition, name))?;
            if definition.section.is_some() {
                push_things(analysis, *definition, found)?;
            }
        }
    }
    Ok(())
}

/// The entry of a section or a macro.
fn symbol_of<'a>(
    analysis: &Analysis<'a>,
    definition: Definition,
    name: usize,
) -> DocumentSymbol<'a> {
    let words = analysis.words.as_slice();
    let start = start_of(words, name);
    let head = Span {
        start,
        end: end_before(words, definition.head_end(words)),
    };
    DocumentSymbol {
        kind: match definition.section {
            Some(_) => SymbolKind::Section,
            None => SymbolKind::Macro,
        },
        name: bytes_at(analysis.text, head),
        whole: Span {
            start: start_of(words, definition.hash),
            end: end_before(words, definition.end),
        },
        at: Span {
            start,
            end: end_before(words, name.saturating_add(1)),
        },
        is_inner: false,
    }
}

/// Adds what the section declares whose words are those of a definition.
fn push_things<'a>(
    analysis: &Analysis<'a>,
    definition: Definition,
    found: &mut Vec<DocumentSymbol<'a>>,
) -> Result<(), AllocError> {
    for thing in &analysis.things {
        if definition.body <= thing.word
            && thing.word < definition.end
            && let Some(word) = analysis.word(thing.word)
        {
            found.push(DocumentSymbol {
                kind: kind_of(thing.kind),
                name: bytes_at(analysis.text, word.span),
                whole: word.span,
                at: word.span,
                is_inner: true,
            })?;
        }
    }
    Ok(())
}

fn kind_of(kind: Kind) -> SymbolKind {
    match kind {
        Kind::Direction => SymbolKind::Direction,
        Kind::Piece => SymbolKind::Piece,
        Kind::Player => SymbolKind::Player,
        Kind::Variable => SymbolKind::Variable,
        Kind::Vertex => SymbolKind::Vertex,
    }
}
