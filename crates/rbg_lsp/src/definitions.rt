//! The definitions of a text: its sections and macros, by the indices of their words.

use crate::words::{Word, is_word, word_bytes};
use rbg_macro::{SectionKind, Symbol, TokenKind};
use std::alloc::AllocError;

/// The sections that there are.
pub(crate) const SECTIONS: [SectionKind; 5] = [
    SectionKind::Players,
    SectionKind::Pieces,
    SectionKind::Variables,
    SectionKind::Board,
    SectionKind::Rules,
];

/// A section or a macro, by the indices of words. The text may end in the middle of it.
#[derive(Clone, Copy)]
pub(crate) struct Definition {
    /// The `#`.
    pub hash: usize,
    /// The name after the `#`, if there is one.
    pub name: Option<usize>,
    /// The section, if the name is that of one.
    pub section: Option<SectionKind>,
    /// The first word of the body. Without a `=` it is the end.
    pub body: usize,
    /// The next definition's `#`, or the end of the text.
    pub end: usize,
}

impl Definition {
    /// The index after the last word of the head.
    pub fn head_end(&self, words: &[Word]) -> usize {
        if self.body > 0 && is_word(words, self.body - 1, TokenKind::Symbol(Symbol::Equals)) {
            self.body - 1
        } else {
            self.body
        }
    }
}

/// Adds the definitions of a text.
pub(crate) fn push_definitions(
    text: &[u8],
    words: &[Word],
    definitions: &mut Vec<Definition>,
) -> Result<(), AllocError> {
    let mut end = words.len();
    for index in (0..words.len()).rev() {
        if is_word(words, index, TokenKind::Symbol(Symbol::Hash)) {
            definitions.push(definition_from(text, words, index, end))?;
            end = index;
        }
    }
    definitions.reverse();
    Ok(())
}

/// The definition from its `#` to its end.
fn definition_from(text: &[u8], words: &[Word], hash: usize, end: usize) -> Definition {
    let next = hash.saturating_add(1);
    let name = if next < end && is_word(words, next, TokenKind::Name) {
        Some(next)
    } else {
        None
    };
    let section = match name {
        Some(name) => section_named(word_bytes(text, words, name)),
        None => None,
    };
    Definition {
        hash,
        name,
        section,
        body: body_of(words, next, end),
        end,
    }
}

/// The index after the first `=` of these words.
fn body_of(words: &[Word], start: usize, end: usize) -> usize {
    for index in start..end {
        if is_word(words, index, TokenKind::Symbol(Symbol::Equals)) {
            return index.saturating_add(1);
        }
    }
    end
}

/// The section of this name.
pub(crate) fn section_named(name: &[u8]) -> Option<SectionKind> {
    for section in SECTIONS {
        if section.name().as_bytes() == name {
            return Some(section);
        }
    }
    None
}

/// The definition that holds the word with this index.
pub(crate) fn definition_around(definitions: &[Definition], index: usize) -> Option<Definition> {
    for definition in definitions {
        if definition.hash <= index && index < definition.end {
            return Some(*definition);
        }
    }
    None
}

/// The first macro of this name.
pub(crate) fn macro_named(
    text: &[u8],
    words: &[Word],
    definitions: &[Definition],
    name: &[u8],
) -> Option<Definition> {
    for definition in definitions {
        if let Some(own) = definition.name
            && definition.section.is_none()
            && word_bytes(text, words, own) == name
        {
            return Some(*definition);
        }
    }
    None
}

/// The word of the parameter of this name in the head of a definition.
pub(crate) fn parameter_named(
    text: &[u8],
    words: &[Word],
    definition: Definition,
    name: &[u8],
) -> Option<usize> {
    let first = definition.name?.saturating_add(1);
    for index in first..definition.head_end(words) {
        if is_word(words, index, TokenKind::Name) && word_bytes(text, words, index) == name {
            return Some(index);
        }
    }
    None
}

/// Whether the macro has parameters.
pub(crate) fn has_parameters(words: &[Word], definition: Definition) -> bool {
    match definition.name {
        Some(name) => is_word(
            words,
            name.saturating_add(1),
            TokenKind::Symbol(Symbol::OpenParenthesis),
        ),
        None => false,
    }
}
