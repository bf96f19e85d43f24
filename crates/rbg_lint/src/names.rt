//! The names of a description, by their kinds.

use crate::among::{before_first, index_of};
use crate::distance::{NameSearch, Nearest};
use rbg_macro::{Symbol, Token};
use std::alloc::{AllocError, Global};

/// What a name may be.
#[derive(Clone, Copy, PartialEq, Eq)]
pub enum NameKind {
    Direction,
    Piece,
    Player,
    Variable,
}

impl NameKind {
    /// All kinds.
    pub const ALL: [NameKind; 4] = [
        NameKind::Direction,
        NameKind::Piece,
        NameKind::Player,
        NameKind::Variable,
    ];

    /// Its name.
    pub fn words(self) -> &'static str {
        match self {
            NameKind::Direction => "direction",
            NameKind::Piece => "piece",
            NameKind::Player => "player",
            NameKind::Variable => "variable",
        }
    }

    /// The section that lists such names.
    fn section(self) -> &'static [u8] {
        match self {
            NameKind::Direction => b"board",
            NameKind::Piece => b"pieces",
            NameKind::Player => b"players",
            NameKind::Variable => b"variables",
        }
    }
}

/// The tokens after the name in the first head of a definition that has this name, up to the next definition.
pub fn after_head<'a>(tokens: &'a [Token<'a>], name: &[u8]) -> &'a [Token<'a>] {
    match rest_after_head(tokens, name) {
        Some(rest) => before_first(rest, Symbol::Hash),
        None => &[],
    }
}

/// All tokens after the name in the first head of a definition that has this name.
pub fn rest_after_head<'a>(tokens: &'a [Token<'a>], name: &[u8]) -> Option<&'a [Token<'a>]> {
    for index in 0..tokens.len() {
        if let Some([hash, head, rest @ ..]) = tokens.get(index..)
            && hash.is(Symbol::Hash)
            && head.text == name
        {
            return Some(rest);
        }
    }
    None
}

/// Whether the token at an index of a section is a name of this kind in a section that lists such names.
fn is_listed(section: &[Token<'_>], index: usize, kind: NameKind) -> bool {
    let Some([token, after @ ..]) = section.get(index..) else {
        return false;
    };
    if !token.kind.is_name() {
        return false;
    }
    match (kind, after.first()) {
        (NameKind::Direction, Some(next)) => is_direction(section, index, next),
        (NameKind::Direction, None) => false,
        _ => true,
    }
}

/// Whether the name at an index of a board, with the token after it, is that of a direction.
fn is_direction(board: &[Token<'_>], index: usize, next: &Token<'_>) -> bool {
    match board.get(1) {
        Some(generator) if generator.text == b"graph".as_slice() => next.is(Symbol::Colon),
        _ => index > 1 && next.is(Symbol::Comma) && !is_after_row(board, index),
    }
}

/// Whether a row begins before an index of a board.
fn is_after_row(board: &[Token<'_>], index: usize) -> bool {
    index_of(board.get(..index).unwrap_or(&[]), Symbol::OpenBracket).is_some()
}

/// Whether a description without macros gives a name to something of this kind.
fn has_name(tokens: &[Token<'_>], name: &[u8], kind: NameKind) -> bool {
    let section = after_head(tokens, kind.section());
    for (index, token) in section.iter().enumerate() {
        if token.text == name && is_listed(section, index, kind) {
            return true;
        }
    }
    false
}

/// Of which kind a name is in a description without macros.
pub fn kind_of(tokens: &[Token<'_>], name: &[u8]) -> Option<NameKind> {
    for kind in NameKind::ALL {
        if has_name(tokens, name, kind) {
            return Some(kind);
        }
    }
    None
}

/// The name of such a kind in a description without macros that is most like a misspelt one.
pub fn nearest_name<'a>(
    alloc: Global,
    tokens: &'a [Token<'a>],
    wanted: &[u8],
    kind: NameKind,
) -> Result<Option<&'a [u8]>, AllocError> {
    let search = NameSearch::new(alloc, wanted);
    let section = after_head(tokens, kind.section());
    let mut found = None;
    for (index, token) in section.iter().enumerate() {
        if is_listed(section, index, kind) {
            search.compare(token.text, &mut found)?;
        }
    }
    Ok(name_of(found))
}

/// The macro in a text that is most like a misspelt name.
pub fn nearest_macro<'a>(
    alloc: Global,
    tokens: &'a [Token<'a>],
    wanted: &[u8],
) -> Result<Option<&'a [u8]>, AllocError> {
    let search = NameSearch::new(alloc, wanted);
    let mut found = None;
    for pair in tokens.windows(2) {
        if let [hash, head] = pair
            && hash.is(Symbol::Hash)
        {
            search.compare(head.text, &mut found)?;
        }
    }
    Ok(name_of(found))
}

fn name_of(found: Option<Nearest<'_>>) -> Option<&[u8]> {
    Some(found?.name)
}
