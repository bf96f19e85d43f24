//! The definitions of a text: its sections and its macros.

use crate::among::index_of;
use rbg_macro::{Symbol, Token};
use std::alloc::{AllocError, Global};

/// The names of the sections.
const SECTIONS: [&str; 5] = ["players", "pieces", "variables", "board", "rules"];

/// A section or a macro.
#[derive(Clone, Copy)]
pub struct Definition<'a> {
    /// Its `#`.
    pub hash: Token<'a>,
    /// The name in its head.
    pub name: Token<'a>,
    /// What is between the name and the `=`.
    pub head: &'a [Token<'a>],
    /// Its `=`.
    pub equals: Token<'a>,
    /// What follows the `=`.
    pub body: &'a [Token<'a>],
}

impl<'a> Definition<'a> {
    /// Whether it is a section.
    pub fn is_section(&self) -> bool {
        is_section(self.name.text)
    }

    /// Whether it has parameters.
    pub fn has_parameters(&self) -> bool {
        !self.head.is_empty()
    }

    /// Which parameter a token of the body is, counted from 0.
    pub fn parameter_index(&self, token: &Token<'_>) -> Option<usize> {
        if !token.kind.is_name() {
            return None;
        }
        let mut count = 0usize;
        for parameter in self.head {
            if parameter.kind.is_name() {
                if parameter.text == token.text {
                    return Some(count);
                }
                count = count.saturating_add(1);
            }
        }
        None
    }
}

/// Whether a name is that of a section.
pub fn is_section(name: &[u8]) -> bool {
    for section in SECTIONS {
        if section.as_bytes() == name {
            return true;
        }
    }
    false
}

/// The definitions among tokens, in order of the text. What has no whole head is none.
pub fn definitions<'a>(
    alloc: Global,
    tokens: &'a [Token<'a>],
) -> Result<Vec<Definition<'a>>, AllocError> {
    let mut found = Vec::new(alloc);
    for (index, token) in tokens.iter().enumerate() {
        if token.is(Symbol::Hash) {
            let after = tokens.get(index.saturating_add(1)..).unwrap_or(&[]);
            push_definition(*token, after, &mut found)?;
        }
    }
    Ok(found)
}

/// Adds the definition of a `#`, if its head is whole.
fn push_definition<'a>(
    hash: Token<'a>,
    after: &'a [Token<'a>],
    found: &mut Vec<Definition<'a>>,
) -> Result<(), AllocError> {
    if let Some(definition) = definition_of(hash, after) {
        found.push(definition)?;
    }
    Ok(())
}

/// The definition that begins with a `#`, with the tokens after it.
fn definition_of<'a>(hash: Token<'a>, after: &'a [Token<'a>]) -> Option<Definition<'a>> {
    let end = index_of(after, Symbol::Hash).unwrap_or(after.len());
    let whole = after.get(..end)?;
    let (name, rest) = whole.split_first()?;
    let middle = index_of(rest, Symbol::Equals)?;
    Some(Definition {
        hash,
        name: *name,
        head: rest.get(..middle)?,
        equals: *rest.get(middle)?,
        body: rest.get(middle.saturating_add(1)..)?,
    })
}
