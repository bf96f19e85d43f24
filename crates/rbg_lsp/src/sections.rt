//! The words of sections, with the macros expanded if they can be.

use crate::definitions::Definition;
use crate::words::{Word, bytes_at, index_of_start};
use rbg_macro::{Section, SectionKind, Source, Token, TokenKind};
use std::alloc::{AllocError, Global};

/// A word of a section: its kind, and the word of the text that it came from.
#[derive(Clone, Copy)]
pub(crate) struct Step {
    pub kind: TokenKind,
    pub word: usize,
    /// Whether the word of the text is only a part of it, since it was joined.
    pub is_joined: bool,
}

/// The words of a section.
pub(crate) struct Body {
    pub section: SectionKind,
    pub steps: Vec<Step>,
}

/// Written by hand: dropping a body is then one call in the proofs of its owners, not a step for each part.
impl Drop for Body {
    fn drop(self) {
        let Body {
            section: _,
            steps: _,
        } = self;
    }
}

/// Adds the sections of an expanded text.
pub(crate) fn push_expanded(
    alloc: Global,
    text: &[u8],
    words: &[Word],
    source: &Source<'_>,
    bodies: &mut Vec<Body>,
) -> Result<(), AllocError> {
    for index in 0..source.len() {
        let section = source.section(index);
        let mut steps = Vec::new(alloc);
        push_steps(text, words, &section, &mut steps)?;
        bodies.push(Body {
            section: section.kind(),
            steps,
        })?;
    }
    Ok(())
}

/// Adds the words of an expanded section.
fn push_steps(
    text: &[u8],
    words: &[Word],
    section: &Section<'_>,
    steps: &mut Vec<Step>,
) -> Result<(), AllocError> {
    for index in 0..section.len() {
        if let Some(step) = step_of(text, words, section.token(index)) {
            steps.push(step)?;
        }
    }
    Ok(())
}

/// The word of a section that is a token of the expanded text.
fn step_of(text: &[u8], words: &[Word], token: Token<'_>) -> Option<Step> {
    let index = index_of_start(words, token.at)?;
    let word = words.get(index)?;
    Some(Step {
        kind: token.kind,
        word: index,
        is_joined: bytes_at(text, word.span) != token.text,
    })
}

/// Adds the sections of a text as they are written.
pub(crate) fn push_written(
    alloc: Global,
    words: &[Word],
    definitions: &[Definition],
    bodies: &mut Vec<Body>,
) -> Result<(), AllocError> {
    for definition in definitions {
        if let Some(section) = definition.section {
            let steps = written_steps(alloc, words, *definition)?;
            bodies.push(Body { section, steps })?;
        }
    }
    Ok(())
}

/// The words of a definition's body as they are written.
pub(crate) fn written_steps(
    alloc: Global,
    words: &[Word],
    definition: Definition,
) -> Result<Vec<Step>, AllocError> {
    let mut steps = Vec::new(alloc);
    push_written_steps(words, definition, &mut steps)?;
    Ok(steps)
}

fn push_written_steps(
    words: &[Word],
    definition: Definition,
    steps: &mut Vec<Step>,
) -> Result<(), AllocError> {
    for index in definition.body..definition.end {
        if let Some(word) = words.get(index) {
            steps.push(Step {
                kind: word.kind,
                word: index,
                is_joined: false,
            })?;
        }
    }
    Ok(())
}
