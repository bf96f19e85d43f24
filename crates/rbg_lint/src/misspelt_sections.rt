//! Misspelt names of sections.

use crate::distance::NameSearch;
use rbg_macro::{Symbol, Token};
use std::alloc::{AllocError, Global};

/// The head of a macro whose name is like that of a section, as `Rules`.
pub fn misspelt_section<'a>(
    alloc: Global,
    tokens: &'a [Token<'a>],
    section: &str,
) -> Result<Option<Token<'a>>, AllocError> {
    for pair in tokens.windows(2) {
        if let [hash, head] = pair
            && hash.is(Symbol::Hash)
            && is_like(alloc, head.text, section)?
        {
            return Ok(Some(*head));
        }
    }
    Ok(None)
}

/// Whether a name is like that of a section.
fn is_like(alloc: Global, name: &[u8], section: &str) -> Result<bool, AllocError> {
    let mut found = None;
    NameSearch::new(alloc, name).compare(section.as_bytes(), &mut found)?;
    Ok(found.is_some())
}
