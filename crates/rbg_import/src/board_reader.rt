//! Reads a board from its tokens.

use crate::board::{Board, Cell, Direction, Shape};
use crate::place::Place;
use rbg_macro::{Symbol, Token};
use std::alloc::{AllocError, Global};

/// The tokens of a board, and how far they were read.
#[derive(Drop)]
pub(crate) struct Reader<'a> {
    tokens: &'a [Token<'a>],
    next: usize,
}

impl<'a> Reader<'a> {
    /// Nothing was read yet.
    pub fn new(tokens: &'a [Token<'a>]) -> Reader<'a> {
        Reader { tokens, next: 0 }
    }

    /// The token at which the board doesn't continue as it should, or the last one if it ends too early.
    pub fn misfit(&self) -> Option<Token<'a>> {
        self.tokens.get(self.next).or(self.tokens.last()).copied()
    }

    /// Whether all tokens were read.
    fn is_at_end(&self) -> bool {
        self.next >= self.tokens.len()
    }

    /// Whether the next token is this symbol.
    fn is_at(&self, symbol: Symbol) -> bool {
        match self.tokens.get(self.next) {
            Some(token) => token.is(symbol),
            None => false,
        }
    }

    /// Reads this symbol, if it is the next token.
    fn take(&mut self, symbol: Symbol) -> bool {
        let is_there = self.is_at(symbol);
        if is_there {
            self.next = self.next.saturating_add(1);
        }
        is_there
    }

    /// Reads a name, if the next token is one.
    fn take_name(&mut self) -> Option<&'a [u8]> {
        let token = self.tokens.get(self.next)?;
        if token.kind.is_name() {
            self.next = self.next.saturating_add(1);
            Some(token.text)
        } else {
            None
        }
    }

    /// Reads a bracket that opens a layer, and returns the one that closes it.
    fn take_layer(&mut self) -> Option<Symbol> {
        if self.take(Symbol::OpenBrace) {
            Some(Symbol::CloseBrace)
        } else if self.take(Symbol::OpenBracket) {
            Some(Symbol::CloseBracket)
        } else {
            None
        }
    }
}

/// Reads a board of a shape, or as much of it as fits.
pub(crate) fn read_board<'a>(
    alloc: Global,
    reader: &mut Reader<'a>,
    shape: Shape,
) -> Result<Option<Board<'a>>, AllocError> {
    let mut board = Board {
        shape,
        directions: Vec::new(alloc),
        cells: Vec::new(alloc),
        width: None,
        has_holes: false,
    };
    let is_read = read_parts(reader, &mut board)?;
    Ok(if is_read { Some(board) } else { None })
}

/// Whether a whole board is read.
fn read_parts<'a>(reader: &mut Reader<'a>, board: &mut Board<'a>) -> Result<bool, AllocError> {
    let _shape = reader.take_name();
    if !reader.take(Symbol::OpenParenthesis) || !read_directions(reader, board)? {
        return Ok(false);
    }
    let are_read = match board.shape {
        Shape::Rectangle => read_rows(reader, board, 0)?,
        Shape::Cuboid => read_layers(reader, board)?,
    };
    Ok(are_read && reader.take(Symbol::CloseParenthesis) && reader.is_at_end())
}

/// Whether the names of the directions are read, each with its comma.
fn read_directions<'a>(reader: &mut Reader<'a>, board: &mut Board<'a>) -> Result<bool, AllocError> {
    for way in board.shape.ways() {
        let Some(name) = reader.take_name() else {
            return Ok(false);
        };
        if !reader.take(Symbol::Comma) {
            return Ok(false);
        }
        board.directions.push(Direction { way: *way, name })?;
    }
    Ok(true)
}

/// Whether one or more layers are read.
fn read_layers<'a>(reader: &mut Reader<'a>, board: &mut Board<'a>) -> Result<bool, AllocError> {
    for layer in 0..reader.tokens.len() {
        let Some(close) = reader.take_layer() else {
            return Ok(layer > 0);
        };
        if !read_rows(reader, board, layer)? || !reader.take(close) {
            return Ok(false);
        }
    }
    Ok(true)
}

/// Whether one or more rows of a layer are read.
fn read_rows<'a>(
    reader: &mut Reader<'a>,
    board: &mut Board<'a>,
    layer: usize,
) -> Result<bool, AllocError> {
    for row in 0..reader.tokens.len() {
        if !reader.take(Symbol::OpenBracket) {
            return Ok(row > 0);
        }
        let Some(width) = read_row(reader, board, row, layer)? else {
            return Ok(false);
        };
        note_width(board, width);
    }
    Ok(true)
}

/// Keeps the number of the cells of a row, holes included.
fn note_width(board: &mut Board<'_>, width: usize) {
    match board.width {
        Some(first) if first != width => board.has_holes = true,
        Some(_) => {}
        None => board.width = Some(width),
    }
}

/// Reads the cells of a row up to its closing bracket. Returns their number, holes included.
fn read_row<'a>(
    reader: &mut Reader<'a>,
    board: &mut Board<'a>,
    row: usize,
    layer: usize,
) -> Result<Option<usize>, AllocError> {
    for x in 0..reader.tokens.len() {
        let place = Place {
            x,
            y: row,
            z: layer,
        };
        read_cell(reader, board, place)?;
        if reader.take(Symbol::CloseBracket) {
            return Ok(Some(x.saturating_add(1)));
        }
        if !reader.take(Symbol::Comma) {
            return Ok(None);
        }
    }
    Ok(None)
}

/// Reads a cell, or a hole.
fn read_cell<'a>(
    reader: &mut Reader<'a>,
    board: &mut Board<'a>,
    place: Place,
) -> Result<(), AllocError> {
    match reader.take_name() {
        Some(piece) => board.cells.push(Cell { place, piece })?,
        None => board.has_holes = true,
    }
    Ok(())
}
