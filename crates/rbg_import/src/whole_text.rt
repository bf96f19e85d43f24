//! Rewrites a whole text.
ghost use Rattle.std.specs.Prelude.{◌≡◌, ℕ, List, ◌++◌, IfOk, IfSome, length};
ghost use Rattle.rbg_import.specs.Comments.{Rewrites};
ghost use Rattle.rbg_import.specs.Importing.{ImportsTo, IsChanged, IsGraph, IsImported};

use crate::board::{Board, Shape};
use crate::board_reader::{Reader, read_board};
use crate::comments::{plain_text, push_comments, push_rewritten};
use crate::definitions::{
    Definition, definitions, first_hole, has_calls, push_calls, push_found, push_macro_boards,
    push_vertex_macros,
};
use crate::fault::{FaultKind, ImportFault, push_fault, push_fault_at};
use crate::graph::graph_text;
use rbg_macro::{MAX_TEXT, TextError, Token, tokens};
use std::alloc::{AllocError, Global};

/// The maximum number of vertices of a board.
const MAX_VERTICES: usize = 4096;

/// The maximum number of bytes for one edge or vertex, without its piece, in a graph that is not too large.
const MAX_NAMES: usize = 10000;

/// The maximum number of reported bytes that begin no token.
const MAX_BAD_BYTES: usize = 20;

/// The result of an import.
#[derive(Drop)]
pub enum Imported {
    /// The new text.
    Text(Vec<u8>),
    /// What can't be rewritten, in order of the text.
    Faults(Vec<ImportFault>),
}

/// The text as this language spells it, or what can't be rewritten.
pub fn import(alloc: Global, text: &[u8]) -> Result<Imported, AllocError>
    ensures { IfOk result (ImportsTo text.now) }
{
    let mut faults = Vec::new(alloc);
    if text.len() > MAX_TEXT {
        push_fault(&mut faults, FaultKind::TooLong, 0, 0)?;
        return Ok(Imported::Faults(faults));
    }
    push_zero_byte(text, &mut faults)?;
    let plain = plain_text(alloc, text)?;
    if let Some(at) = plain.open {
        push_fault(&mut faults, FaultKind::OpenComment, at, 2)?;
    }
    let mut bytes = plain.bytes;
    clear_bad_bytes(alloc, &mut bytes, &mut faults)?;
    import_plain(alloc, text, &bytes, faults)
}

/// Reports the first zero byte.
fn push_zero_byte(text: &[u8], faults: &mut Vec<ImportFault>) -> Result<(), AllocError> {
    match text.iter().position(|byte| *byte == 0) {
        Some(at) => push_fault(faults, FaultKind::ZeroByte, at, 0),
        None => Ok(()),
    }
}

/// Reports bytes that begin no token, and puts blanks in their place.
fn clear_bad_bytes(
    alloc: Global,
    bytes: &mut Vec<u8>,
    faults: &mut Vec<ImportFault>,
) -> Result<(), AllocError> {
    for _ in 0..MAX_BAD_BYTES {
        let Some(at) = bad_byte(alloc, bytes)? else {
            return Ok(());
        };
        push_fault(faults, FaultKind::BadByte, at, 1)?;
        clear_byte(bytes, at);
    }
    Ok(())
}

/// The offset of the first byte that begins no token.
fn bad_byte(alloc: Global, bytes: &[u8]) -> Result<Option<usize>, AllocError> {
    match tokens(alloc, bytes) {
        Err(TextError::BadByte { at }) => Ok(Some(at)),
        Err(TextError::Memory) => Err(AllocError),
        _ => Ok(None),
    }
}

/// Puts a blank in place of a byte, and of those after it that are no ASCII.
fn clear_byte(bytes: &mut Vec<u8>, at: usize) {
    for index in at..bytes.len() {
        if index > at && bytes[index] < 128 {
            return;
        }
        bytes[index] = b' ';
    }
}

/// Rewrites a text, of which these bytes are the same without its comments.
fn import_plain(
    alloc: Global,
    text: &[u8],
    plain: &[u8],
    faults: Vec<ImportFault>,
) -> Result<Imported, AllocError>
    ensures { IfOk result (ImportsTo text.now) }
{
    match tokens(alloc, plain) {
        Ok(tokens) => import_tokens(alloc, text, tokens.as_slice(), faults),
        Err(TextError::Memory) => Err(AllocError),
        Err(_) => Ok(Imported::Faults(faults)),
    }
}

/// The part of a text that a board takes, and the graph that replaces it.
#[derive(Drop)]
struct Change {
    start: usize,
    end: usize,
    graph: Vec<u8>,
}

/// Rewrites a text with these tokens.
fn import_tokens(
    alloc: Global,
    text: &[u8],
    tokens: &[Token<'_>],
    found: Vec<ImportFault>,
) -> Result<Imported, AllocError>
    ensures { IfOk result (ImportsTo text.now) }
{
    let mut faults = found;
    let change = change_of(alloc, tokens, &mut faults)?;
    if !faults.is_empty() {
        return Ok(Imported::Faults(faults));
    }
    match change {
        Some(change) => text_or_fault(faults, changed(alloc, text, &change)?),
        None => text_or_fault(faults, rewritten(alloc, text)?),
    }
}

/// The new text, if it isn't too long.
fn text_or_fault(found: Vec<ImportFault>, new: Vec<u8>) -> Result<Imported, AllocError>
    ensures { (text : List ℕ) → IsImported text new.items → IfOk result (ImportsTo text) }
{
    let mut faults = found;
    if new.len() > MAX_TEXT {
        push_fault(&mut faults, FaultKind::TooLongAfter, 0, 0)?;
        return Ok(Imported::Faults(faults));
    }
    Ok(Imported::Text(new))
}

/// The text with only its comments rewritten.
fn rewritten(alloc: Global, text: &[u8]) -> Result<Vec<u8>, AllocError>
    ensures { IfOk result (λ new. Rewrites text.now (length text.now) new.items) }
{
    let mut output = Vec::new(alloc);
    push_rewritten(text, &mut output)?;
    Ok(output)
}

/// The text with a graph in place of its board. The comments inside the board come before the graph.
fn changed(alloc: Global, text: &[u8], change: &Change) -> Result<Vec<u8>, AllocError>
    requires { IsGraph change.now.graph.items }
    ensures { IfOk result (λ new. IsChanged text.now new.items) }
{
    let end = change.end.min(text.len());
    let start = change.start.min(end);
    let before = rewritten(alloc, &text[..start])?;
    let notes = comments(alloc, &text[start..end])?;
    let after = rewritten(alloc, &text[end..])?;
    joined(alloc, &before, &notes, &change.graph, &after)
}

/// The comments among some bytes, each in lines of its own.
fn comments(alloc: Global, bytes: &[u8]) -> Result<Vec<u8>, AllocError> {
    let mut output = Vec::new(alloc);
    push_comments(bytes, &mut output)?;
    Ok(output)
}

/// Four parts of a text, one after the other.
fn joined(
    alloc: Global,
    before: &[u8],
    notes: &[u8],
    graph: &[u8],
    after: &[u8],
) -> Result<Vec<u8>, AllocError>
    ensures { IfOk result (λ new. new.items
        ≡ ((before.now ++ notes.now) ++ graph.now) ++ after.now) }
{
    let mut output = before.to_vec(alloc)?;
    output.extend_from_slice(notes)?;
    output.extend_from_slice(graph)?;
    output.extend_from_slice(after)?;
    Ok(output)
}

/// The change of the board of a text, if it is to become a graph. Reports what can't be rewritten.
fn change_of(
    alloc: Global,
    tokens: &[Token<'_>],
    faults: &mut Vec<ImportFault>,
) -> Result<Option<Change>, AllocError>
    ensures { IfOk result (λ found. IfSome found (λ change. IsGraph change.graph.items)) }
{
    let definitions = definitions(alloc, tokens)?;
    push_macro_boards(&definitions, faults)?;
    for definition in &definitions {
        if definition.is_board() {
            return change_of_board(alloc, &definitions, definition.body, faults);
        }
    }
    Ok(None)
}

/// The same of a board with these tokens.
fn change_of_board(
    alloc: Global,
    definitions: &[Definition<'_>],
    body: &[Token<'_>],
    faults: &mut Vec<ImportFault>,
) -> Result<Option<Change>, AllocError>
    ensures { IfOk result (λ found. IfSome found (λ change. IsGraph change.graph.items)) }
{
    let hole = first_hole(body);
    let Some(shape) = Shape::of(body) else {
        push_found(FaultKind::Hole, hole, faults)?;
        return Ok(None);
    };
    let mut reader = Reader::new(body);
    match read_board(alloc, &mut reader, shape)? {
        Some(board) if stays(definitions, body, &board) => Ok(None),
        Some(board) => graph_change(alloc, definitions, body, &board, faults),
        None if shape == Shape::Rectangle && hole.is_none() => Ok(None),
        None => {
            push_misfit(definitions, body, &reader, faults)?;
            Ok(None)
        }
    }
}

/// Whether a board is a rectangle that is no graph. If it calls macros, rows that differ in length may become equal.
fn stays(definitions: &[Definition<'_>], body: &[Token<'_>], board: &Board<'_>) -> bool {
    let is_whole = !board.has_holes || first_hole(body).is_none() && has_calls(definitions, body);
    board.shape == Shape::Rectangle && is_whole
}

/// Reports why a board isn't read: it calls macros, or else one of its tokens doesn't fit.
fn push_misfit(
    definitions: &[Definition<'_>],
    body: &[Token<'_>],
    reader: &Reader<'_>,
    faults: &mut Vec<ImportFault>,
) -> Result<(), AllocError> {
    let before = faults.len();
    push_calls(definitions, body, faults)?;
    if faults.len() > before {
        return Ok(());
    }
    push_found(FaultKind::Misfit, reader.misfit(), faults)
}

/// The change of a board to a graph.
fn graph_change(
    alloc: Global,
    definitions: &[Definition<'_>],
    body: &[Token<'_>],
    board: &Board<'_>,
    faults: &mut Vec<ImportFault>,
) -> Result<Option<Change>, AllocError>
    ensures { IfOk result (λ found. IfSome found (λ change. IsGraph change.graph.items)) }
{
    push_calls(definitions, body, faults)?;
    push_vertex_macros(definitions, faults)?;
    let (Some(first), Some(last)) = (body.first(), body.last()) else {
        return Ok(None);
    };
    if let Some(kind) = size_fault(board) {
        push_fault_at(faults, kind, *first)?;
        return Ok(None);
    }
    Ok(Some(Change {
        start: first.at,
        end: last.at.saturating_add(last.text.len()),
        graph: graph_text(alloc, board)?,
    }))
}

/// Whether a graph would be too large.
fn size_fault(board: &Board<'_>) -> Option<FaultKind> {
    let mut names = 0usize;
    for direction in &board.directions {
        names = names.saturating_add(direction.name.len());
    }
    if board.cells.len() > MAX_VERTICES {
        Some(FaultKind::TooManyVertices)
    } else if names > MAX_NAMES {
        Some(FaultKind::TooLongAfter)
    } else {
        None
    }
}
