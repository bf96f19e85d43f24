//! The board of a text, its macros, and rows that lack a cell.

use crate::fault::{FaultKind, ImportFault, push_fault_at};
use rbg_macro::{Symbol, Token};
use std::alloc::{AllocError, Global};

/// The names of the sections.
const SECTIONS: [&str; 5] = ["players", "pieces", "variables", "board", "rules"];

/// A section or a macro of a text.
#[derive(Clone, Copy)]
pub(crate) struct Definition<'a> {
    /// The name in its head.
    pub name: Token<'a>,
    /// What follows its `=`.
    pub body: &'a [Token<'a>],
}

impl Definition<'_> {
    /// Whether it is a macro.
    pub fn is_macro(&self) -> bool {
        for section in SECTIONS {
            if section.as_bytes() == self.name.text {
                return false;
            }
        }
        true
    }

    /// Whether it is the board.
    pub fn is_board(&self) -> bool {
        self.name.text == b"board".as_slice()
    }
}

/// The sections and macros of a text, in order. What has no whole head is none.
pub(crate) fn definitions<'a>(
    alloc: Global,
    tokens: &'a [Token<'a>],
) -> Result<Vec<Definition<'a>>, AllocError> {
    let mut found = Vec::new(alloc);
    for (index, token) in tokens.iter().enumerate() {
        if token.is(Symbol::Hash) {
            push_definition(tokens.get(index.saturating_add(1)..), &mut found)?;
        }
    }
    Ok(found)
}

/// Adds the definition that these tokens continue after its `#`, if its head is whole.
fn push_definition<'a>(
    after: Option<&'a [Token<'a>]>,
    found: &mut Vec<Definition<'a>>,
) -> Result<(), AllocError> {
    if let Some(definition) = definition_of(after) {
        found.push(definition)?;
    }
    Ok(())
}

fn definition_of<'a>(after: Option<&'a [Token<'a>]>) -> Option<Definition<'a>> {
    let after = after?;
    let end = index_of(after, Symbol::Hash).unwrap_or(after.len());
    let (name, rest) = after.get(..end)?.split_first()?;
    let equals = index_of(rest, Symbol::Equals)?;
    Some(Definition {
        name: *name,
        body: rest.get(equals.saturating_add(1)..)?,
    })
}

/// The index of the first token that is this symbol.
fn index_of(tokens: &[Token<'_>], symbol: Symbol) -> Option<usize> {
    for (index, token) in tokens.iter().enumerate() {
        if token.is(symbol) {
            return Some(index);
        }
    }
    None
}

/// The first token of a board after which a cell is lacking.
pub(crate) fn first_hole<'a>(tokens: &[Token<'a>]) -> Option<Token<'a>> {
    for pair in tokens.windows(2) {
        if let [before, after] = pair
            && is_hole(*before, *after)
        {
            return Some(*before);
        }
    }
    None
}

/// Whether a cell is lacking between two tokens: between commas, or between a comma and the bracket of a row.
fn is_hole(before: Token<'_>, after: Token<'_>) -> bool {
    let is_after_bracket = before.is(Symbol::OpenBracket) && after.is(Symbol::Comma);
    let is_before_bracket = before.is(Symbol::Comma) && after.is(Symbol::CloseBracket);
    let is_between = before.is(Symbol::Comma) && after.is(Symbol::Comma);
    is_after_bracket || is_before_bracket || is_between
}

/// Reports the boards of layers in macros, and the rows that lack a cell: of each macro the first one.
pub(crate) fn push_macro_boards(
    definitions: &[Definition<'_>],
    faults: &mut Vec<ImportFault>,
) -> Result<(), AllocError> {
    for definition in definitions {
        if definition.is_macro() {
            push_found(FaultKind::CuboidInMacro, cuboid(definition.body), faults)?;
            push_found(FaultKind::HoleInMacro, first_hole(definition.body), faults)?;
        }
    }
    Ok(())
}

/// Reports that a token can't be rewritten, if there is one.
pub(crate) fn push_found(
    kind: FaultKind,
    found: Option<Token<'_>>,
    faults: &mut Vec<ImportFault>,
) -> Result<(), AllocError> {
    match found {
        Some(token) => push_fault_at(faults, kind, token),
        None => Ok(()),
    }
}

/// The first token that begins a board of layers.
fn cuboid<'a>(tokens: &[Token<'a>]) -> Option<Token<'a>> {
    for token in tokens {
        if token.text == b"cuboid".as_slice() {
            return Some(*token);
        }
    }
    None
}

/// Whether the tokens of a board call a macro, or are joined.
pub(crate) fn has_calls(definitions: &[Definition<'_>], board: &[Token<'_>]) -> bool {
    for token in board {
        if is_call(definitions, *token) {
            return true;
        }
    }
    false
}

/// Reports the calls of macros among the tokens of a board, and joined tokens.
pub(crate) fn push_calls(
    definitions: &[Definition<'_>],
    board: &[Token<'_>],
    faults: &mut Vec<ImportFault>,
) -> Result<(), AllocError> {
    for token in board {
        if is_call(definitions, *token) {
            push_fault_at(faults, FaultKind::MacroInBoard, *token)?;
        }
    }
    Ok(())
}

fn is_call(definitions: &[Definition<'_>], token: Token<'_>) -> bool {
    token.is(Symbol::Tilde) || is_macro_name(definitions, token.text)
}

fn is_macro_name(definitions: &[Definition<'_>], name: &[u8]) -> bool {
    for definition in definitions {
        if definition.is_macro() && definition.name.text == name {
            return true;
        }
    }
    false
}

/// Reports the macros that have a name which a vertex of a graph could have.
pub(crate) fn push_vertex_macros(
    definitions: &[Definition<'_>],
    faults: &mut Vec<ImportFault>,
) -> Result<(), AllocError> {
    for definition in definitions {
        if definition.is_macro() && is_vertex_name(definition.name.text) {
            push_fault_at(faults, FaultKind::VertexMacro, definition.name)?;
        }
    }
    Ok(())
}

/// Whether a name is an `x` with digits, `y`, `z` and further digits in any order after it.
fn is_vertex_name(name: &[u8]) -> bool {
    match name {
        [b'x', b'0'..=b'9', rest @ ..] => are_coordinates(rest),
        _ => false,
    }
}

fn are_coordinates(bytes: &[u8]) -> bool {
    for byte in bytes {
        if !matches!(*byte, b'0'..=b'9' | b'y' | b'z') {
            return false;
        }
    }
    true
}
