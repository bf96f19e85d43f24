//! What squares are called: as on boards of that kind.

use rbg_game::Layout;
use rbg_wire::write_number;
use std::alloc::AllocError;

/// How many letters there are, and pairs of letters.
const LETTERS: usize = 26;

const PAIRS: usize = 676;

/// A part of a square's name, and the name of a row or a column.
#[derive(Clone, Copy)]
pub(crate) enum Part {
    /// The letters of a number from 0: `a` to `z`, then `aa` and so on.
    Letters(usize),
    Number(usize),
}

/// Appends the name of a vertex: that of a graph's, or the letter of its column and the number of its row from below, or in
/// a hexagon the letter of its row from below and the number of its place in it.
pub fn push_square(layout: &Layout, vertex: usize, out: &mut Vec<u8>) -> Result<(), AllocError> {
    match layout {
        Layout::Rectangle { rows } => {
            let (column, level) = spot_of(rows, vertex);
            push_part(Part::Letters(column), out)?;
            push_part(Part::Number(level), out)
        }
        Layout::Hexagon { rows } => {
            let (column, level) = spot_of(rows, vertex);
            push_part(Part::Letters(level.saturating_sub(1)), out)?;
            push_part(Part::Number(column.saturating_add(1)), out)
        }
        Layout::Graph { names } => match names.get(vertex) {
            Some(name) => out.extend_from_slice(name),
            None => Ok(()),
        },
    }
}

/// The column of a vertex in rows of these lengths, from 0, and its row, from 1 for the lowest.
fn spot_of(rows: &[usize], vertex: usize) -> (usize, usize) {
    let mut column = vertex;
    for (row, length) in rows.iter().enumerate() {
        if column < *length {
            return (column, rows.len().saturating_sub(row));
        }
        column -= *length;
    }
    (column, 0)
}

/// Appends a part of a name.
pub(crate) fn push_part(part: Part, out: &mut Vec<u8>) -> Result<(), AllocError> {
    match part {
        Part::Letters(number) => push_letters(number, out),
        Part::Number(number) => write_number(number as u64, out),
    }
}

/// Appends the letters of a number. A board has not so many vertices that there are four.
fn push_letters(number: usize, out: &mut Vec<u8>) -> Result<(), AllocError> {
    if number >= LETTERS + PAIRS {
        out.push(letter_of((number - LETTERS - PAIRS) / PAIRS))?;
    }
    if number >= LETTERS {
        out.push(letter_of((number - LETTERS) / LETTERS))?;
    }
    out.push(letter_of(number))?;
    Ok(())
}

/// The letter of a number, counted on after the last one from the first again.
fn letter_of(number: usize) -> u8 {
    b'a' + (number % LETTERS) as u8
}
