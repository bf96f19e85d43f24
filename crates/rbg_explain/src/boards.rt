//! The place of a refused board among the tokens of its section.

use rbg_board::BoardError;
use rbg_game::limits::MAX_VERTICES;
use rbg_lint::{after_head, before_first, count_names, has_text, is_at, nth_name};
use rbg_macro::{Symbol, Token};

/// The token at which a refused board is shown. The board is one that is spelt right.
pub(crate) fn board_place<'a>(error: &BoardError, board: &'a [Token<'a>]) -> Option<Token<'a>> {
    match error {
        BoardError::NoCell => empty_row(board),
        BoardError::RowLength { row } => row_start(board, *row),
        BoardError::TooManyVertices => cell(board, MAX_VERTICES),
        BoardError::SameDirection => second_direction(board),
        BoardError::UnknownVertex => unknown_target(board),
        BoardError::SameVertex => second_vertex(board),
        BoardError::Memory => None,
    }
}

/// The first row without a cell, or else the name of the generator.
fn empty_row<'a>(board: &'a [Token<'a>]) -> Option<Token<'a>> {
    for (index, token) in board.iter().enumerate() {
        let is_empty = is_at(board, index.saturating_add(1), Symbol::CloseBracket);
        if token.is(Symbol::OpenBracket) && is_empty {
            return Some(*token);
        }
    }
    board.first().copied()
}

/// How many cells a row has, counted from 0, in a description without macros; how many the row has by which it is measured,
/// and whether that is the first one.
pub(crate) fn row_lengths(tokens: &[Token<'_>], row: usize) -> Option<(usize, usize, bool)> {
    let board = after_head(tokens, b"board");
    let is_rectangle = board.get(1)?.text == b"rectangle".as_slice();
    let other = if is_rectangle { 0 } else { row.checked_sub(1)? };
    Some((
        row_length(board, row)?,
        row_length(board, other)?,
        is_rectangle,
    ))
}

/// How many cells a row of a board has.
fn row_length(board: &[Token<'_>], row: usize) -> Option<usize> {
    let start = row_start(board, row)?;
    for (index, token) in board.iter().enumerate() {
        if token.at == start.at {
            let cells = before_first(board.get(index..)?, Symbol::CloseBracket);
            return Some(count_names(cells));
        }
    }
    None
}

/// The bracket that opens a row, counted from 0.
fn row_start<'a>(board: &'a [Token<'a>], row: usize) -> Option<Token<'a>> {
    let mut left = row;
    for token in board {
        if token.is(Symbol::OpenBracket) {
            if left == 0 {
                return Some(*token);
            }
            left -= 1;
        }
    }
    None
}

/// The piece of a vertex, counted from 0.
fn cell<'a>(board: &'a [Token<'a>], vertex: usize) -> Option<Token<'a>> {
    let mut left = vertex;
    let mut is_inside = false;
    for token in board {
        if token.is(Symbol::OpenBracket) {
            is_inside = true;
        } else if token.is(Symbol::CloseBracket) {
            is_inside = false;
        } else if is_inside && token.kind.is_name() {
            if left == 0 {
                return Some(*token);
            }
            left -= 1;
        }
    }
    None
}

/// The second one of two equal directions: of the names before the first row, or of the edges of one vertex.
fn second_direction<'a>(board: &'a [Token<'a>]) -> Option<Token<'a>> {
    if is_graph(board) {
        return second_edge(board);
    }
    let names = before_first(board, Symbol::OpenBracket);
    second_name(names.get(1..).unwrap_or(&[]))
}

/// The first name that stands before among these tokens.
fn second_name<'a>(tokens: &'a [Token<'a>]) -> Option<Token<'a>> {
    for (index, token) in tokens.iter().enumerate() {
        let earlier = tokens.get(..index).unwrap_or(&[]);
        if token.kind.is_name() && has_text(earlier, token.text) {
            return Some(*token);
        }
    }
    None
}

/// The second one of two equal directions of the edges of one vertex.
fn second_edge<'a>(board: &'a [Token<'a>]) -> Option<Token<'a>> {
    let mut start = 0usize;
    for (index, token) in board.iter().enumerate() {
        if token.is(Symbol::CloseBrace) {
            start = index;
        } else if is_second(board, start, index, Symbol::Colon) {
            return Some(*token);
        }
    }
    None
}

/// The second one of two vertices of one name.
fn second_vertex<'a>(board: &'a [Token<'a>]) -> Option<Token<'a>> {
    second_before(board, Symbol::OpenBracket)
}

/// The first name before such a symbol that stood before one already.
fn second_before<'a>(tokens: &'a [Token<'a>], symbol: Symbol) -> Option<Token<'a>> {
    for (index, token) in tokens.iter().enumerate() {
        if is_second(tokens, 0, index, symbol) {
            return Some(*token);
        }
    }
    None
}

/// Whether the name at an index stands before such a symbol, as one from a start on before it does already.
fn is_second(tokens: &[Token<'_>], start: usize, index: usize, symbol: Symbol) -> bool {
    let earlier = tokens.get(start..=index).unwrap_or(&[]);
    match earlier.last() {
        Some(token) => {
            is_at(tokens, index.saturating_add(1), symbol)
                && stands_before(earlier, token.text, symbol)
        }
        None => false,
    }
}

/// Whether a name stands directly before such a symbol.
pub(crate) fn stands_before(tokens: &[Token<'_>], name: &[u8], symbol: Symbol) -> bool {
    for (index, token) in tokens.iter().enumerate() {
        if token.text == name && is_at(tokens, index.saturating_add(1), symbol) {
            return true;
        }
    }
    false
}

/// The first target of an edge that is no vertex.
fn unknown_target<'a>(board: &'a [Token<'a>]) -> Option<Token<'a>> {
    for (index, token) in board.iter().enumerate() {
        let is_target = is_at(board, index.saturating_sub(1), Symbol::Colon);
        if is_target && !stands_before(board, token.text, Symbol::OpenBracket) {
            return Some(*token);
        }
    }
    None
}

/// The direction after so many directions, at its first use.
pub(crate) fn nth_direction<'a>(board: &'a [Token<'a>], count: usize) -> Option<Token<'a>> {
    if is_graph(board) {
        nth_edge_name(board, count)
    } else {
        nth_name(board.get(1..).unwrap_or(&[]), count)
    }
}

fn is_graph(board: &[Token<'_>]) -> bool {
    match board.first() {
        Some(first) => first.text == b"graph".as_slice(),
        None => false,
    }
}

/// The name of an edge after so many other names of edges.
fn nth_edge_name<'a>(board: &'a [Token<'a>], count: usize) -> Option<Token<'a>> {
    let mut left = count;
    for (index, token) in board.iter().enumerate() {
        let is_direction = is_at(board, index.saturating_add(1), Symbol::Colon);
        let earlier = board.get(..=index).unwrap_or(&[]);
        if is_direction && !stands_before(earlier, token.text, Symbol::Colon) {
            if left == 0 {
                return Some(*token);
            }
            left -= 1;
        }
    }
    None
}
