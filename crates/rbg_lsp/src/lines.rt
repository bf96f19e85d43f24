//! Lines of a text, and positions in them as editors count them: from 0, with columns in units of UTF-16.

use std::alloc::{AllocError, Global};

/// A position in a text: the number of a line from 0, and the number of UTF-16 units before it in the line.
#[derive(Clone, Copy, PartialEq, Eq)]
pub(crate) struct Position {
    pub line: usize,
    pub column: usize,
}

/// Where the lines of a text begin. A line ends with a line feed, a carriage return, or both in this order.
#[derive(Drop)]
pub(crate) struct Lines {
    starts: Vec<usize>,
}

impl Lines {
    /// The lines of a text.
    pub fn of(alloc: Global, text: &[u8]) -> Result<Lines, AllocError> {
        let mut starts = Vec::new(alloc);
        push_starts(text, &mut starts)?;
        Ok(Lines { starts })
    }

    /// The offset of a position. A position past the end of a line is that end, and one past the last line is the end
    /// of the text. The text is the one whose lines these are.
    pub fn offset_of(&self, text: &[u8], position: Position) -> usize {
        let starts = self.starts.as_slice();
        let Some(start) = starts.get(position.line).copied() else {
            return text.len();
        };
        let after = text.get(start..).unwrap_or(&[]);
        let len = len_of_columns(after, position.column);
        start.saturating_add(len).min(text.len())
    }

    /// The position of an offset. The text is the one whose lines these are.
    pub fn position_of(&self, text: &[u8], at: usize) -> Position {
        let starts = self.starts.as_slice();
        let line = starts
            .partition_point(|start| *start <= at)
            .saturating_sub(1);
        let start = starts.get(line).copied().unwrap_or(0);
        let before = text.get(start..at.min(text.len())).unwrap_or(&[]);
        Position {
            line,
            column: units(before),
        }
    }
}

/// Adds the offset of the first byte of each line.
fn push_starts(text: &[u8], starts: &mut Vec<usize>) -> Result<(), AllocError> {
    starts.push(0)?;
    for (index, byte) in text.iter().enumerate() {
        let next = index.saturating_add(1);
        let is_end = *byte == b'\n' || *byte == b'\r' && !is_line_feed(text, next);
        if is_end {
            starts.push(next)?;
        }
    }
    Ok(())
}

fn is_line_feed(text: &[u8], at: usize) -> bool {
    match text.get(at) {
        Some(byte) => *byte == b'\n',
        None => false,
    }
}

/// How many bytes of a line are before this many units of UTF-16. A character that would be cut is not counted.
fn len_of_columns(after: &[u8], column: usize) -> usize {
    let mut left = column;
    for (index, byte) in after.iter().enumerate() {
        if *byte == b'\n' || *byte == b'\r' {
            return index;
        }
        let needed = units_of(*byte);
        if needed > left || left == 0 && needed > 0 {
            return index;
        }
        left -= needed;
    }
    after.len()
}

/// How many units of UTF-16 bytes of UTF-8 have.
fn units(bytes: &[u8]) -> usize {
    let mut count = 0usize;
    for byte in bytes {
        count = count.saturating_add(units_of(*byte));
    }
    count
}

/// How many units of UTF-16 the character has that begins with this byte of UTF-8: 0 if none begins.
fn units_of(byte: u8) -> usize {
    match byte {
        0x80..=0xbf => 0,
        0xf0..=0xff => 2,
        _ => 1,
    }
}
