//! The tokens of a text and of its sections, with the macros expanded.

use rbg_macro::{
    MacroError, Section, SectionKind, Source, TextError, Token, Tokens, expand, tokens,
};
use std::alloc::{AllocError, Global};

/// The tokens of a text, or None if it can't be cut into tokens.
pub fn cut(alloc: Global, text: &[u8]) -> Result<Option<Tokens<'_>>, AllocError> {
    match tokens(alloc, text) {
        Ok(tokens) => Ok(Some(tokens)),
        Err(TextError::Memory) => Err(AllocError),
        Err(_) => Ok(None),
    }
}

/// The expanded sections, or None if the macros are refused.
pub fn expanded<'t>(alloc: Global, tokens: &Tokens<'t>) -> Result<Option<Source<'t>>, AllocError> {
    match expand(alloc, tokens) {
        Err(MacroError::Memory) => Err(AllocError),
        Err(_) => Ok(None),
        Ok(source) => Ok(Some(source)),
    }
}

/// The tokens of the first section of a kind, none if there is no such section.
pub fn section_tokens<'a>(
    alloc: Global,
    source: &'a Source<'_>,
    kind: SectionKind,
) -> Result<Vec<Token<'a>>, AllocError> {
    let mut tokens = Vec::new(alloc);
    push_section(source, kind, &mut tokens)?;
    Ok(tokens)
}

/// Adds the tokens of the first section of a kind.
fn push_section<'a>(
    source: &'a Source<'_>,
    kind: SectionKind,
    tokens: &mut Vec<Token<'a>>,
) -> Result<(), AllocError> {
    for index in 0..source.len() {
        let section = source.section(index);
        if section.kind() == kind {
            return push_tokens(&section, tokens);
        }
    }
    Ok(())
}

/// Adds the tokens of a section.
pub fn push_tokens<'a>(
    section: &Section<'a>,
    tokens: &mut Vec<Token<'a>>,
) -> Result<(), AllocError> {
    for index in 0..section.len() {
        tokens.push(section.token(index))?;
    }
    Ok(())
}
