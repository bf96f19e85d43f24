//! All that is reported to an author of a text, as values.

use crate::explanation::faults;
use crate::warned::game_warnings;
use rbg_game::{LoadError, load_with_layout};
use rbg_lint::Diagnostic;
use rbg_macro::{TextError, Tokens, tokens};
use std::alloc::{AllocError, Global};

/// The faults of a text, or the warnings of the game that it describes. Those that are printed of it are made of these.
pub fn diagnostics(alloc: Global, text: &[u8]) -> Result<Vec<Diagnostic>, AllocError> {
    match tokens(alloc, text) {
        Ok(tokens) => diagnostics_of(alloc, text, &tokens),
        Err(TextError::Memory) => Err(AllocError),
        Err(error) => faults(alloc, text, None, &LoadError::Text(error)),
    }
}

/// The faults of a text with these tokens, or the warnings of the game that it describes.
fn diagnostics_of(
    alloc: Global,
    text: &[u8],
    tokens: &Tokens<'_>,
) -> Result<Vec<Diagnostic>, AllocError> {
    match load_with_layout(alloc, tokens) {
        Ok(loaded) => game_warnings(alloc, text, tokens, &loaded.game),
        Err(error) if error.is_memory() => Err(AllocError),
        Err(error) => faults(alloc, text, Some(tokens), &error),
    }
}
