//! A line of a text, with carets below a place in it.
ghost use Rattle.std.specs.Prelude.{◌≡◌, IfOk, map};
ghost use Rattle.rbg_warnings.specs.Excerpts.{shown_as, padded_as};

use std::alloc::{AllocError, Global};

/// How many bytes of a line are shown before the place.
const MOST_BEFORE: usize = 80;

/// How many bytes of a line are shown from the place on.
const MOST_AFTER: usize = 80;

/// A part of a line: some bytes at a place in it.
#[derive(Clone, Copy)]
pub struct Excerpt<'a> {
    /// The line's number.
    pub number: usize,
    /// The line.
    pub bytes: &'a [u8],
    /// The offset of the place in the line.
    pub offset: usize,
    /// The number of bytes at the place.
    pub width: usize,
}

impl<'a> Excerpt<'a> {
    /// Writes the line's number and the line, and below them the carets. Of a long line the part around the place is
    /// written.
    pub fn write(&self, alloc: Global, output: &mut Vec<u8>) -> Result<(), AllocError> {
        let number = self.number.to_string(alloc)?;
        self.write_line(alloc, number.as_bytes(), output)?;
        self.write_carets(alloc, number.len(), output)
    }

    fn write_line(
        &self,
        alloc: Global,
        number: &[u8],
        output: &mut Vec<u8>,
    ) -> Result<(), AllocError> {
        output.extend_from_slice(number)?;
        output.extend_from_slice(b" | ")?;
        output.extend_from_slice(self.mark())?;
        push_shown(alloc, self.before(), output)?;
        let after = self.after();
        push_shown(alloc, after, output)?;
        output.extend_from_slice(cut_mark(after.len() < self.rest().len()))?;
        output.extend_from_slice(b"\n")
    }

    /// The carets come after as many blanks as the number has digits.
    fn write_carets(
        &self,
        alloc: Global,
        digits: usize,
        output: &mut Vec<u8>,
    ) -> Result<(), AllocError> {
        push_repeated(output, b' ', digits)?;
        output.extend_from_slice(b" | ")?;
        push_repeated(output, b' ', self.mark().len())?;
        push_padding(alloc, self.before(), output)?;
        push_repeated(output, b'^', self.width.min(self.after().len()).max(1))?;
        output.extend_from_slice(b"\n")
    }

    /// The shown part of the line before the place.
    fn before(&self) -> &'a [u8] {
        let first = self.offset.saturating_sub(MOST_BEFORE);
        let before = self.bytes.get(first..self.offset);
        before.unwrap_or(&[])
    }

    /// The line from the place on.
    fn rest(&self) -> &'a [u8] {
        let rest = self.bytes.get(self.offset..);
        rest.unwrap_or(&[])
    }

    /// The shown part from the place on.
    fn after(&self) -> &'a [u8] {
        let rest = self.rest();
        let after = rest.get(..MOST_AFTER);
        after.unwrap_or(rest)
    }

    /// The mark before the shown part of the line.
    fn mark(&self) -> &'static [u8] {
        cut_mark(self.offset > MOST_BEFORE)
    }
}

/// The mark in place of a part of the line that is left out.
fn cut_mark(is_cut: bool) -> &'static [u8] {
    if is_cut { b".." } else { b"" }
}

fn push_shown(alloc: Global, bytes: &[u8], output: &mut Vec<u8>) -> Result<(), AllocError> {
    let shown = shown_bytes(alloc, bytes)?;
    output.extend_from_slice(shown.as_slice())
}

fn push_padding(alloc: Global, bytes: &[u8], output: &mut Vec<u8>) -> Result<(), AllocError> {
    let blanks = padding(alloc, bytes)?;
    output.extend_from_slice(blanks.as_slice())
}

/// The bytes as they are written: a control byte other than a tab is a `?`.
fn shown_bytes(alloc: Global, bytes: &[u8]) -> Result<Vec<u8>, AllocError>
    ensures { IfOk result (λ shown. shown.items ≡ map shown_as bytes.now) }
{
    bytes.iter().map(|byte| shown_byte(*byte)).collect(alloc)
}

fn shown_byte(byte: u8) -> u8
    ensures { result ≡ shown_as byte }
{
    if byte < b' ' && byte != b'\t' || byte == 127 {
        b'?'
    } else {
        byte
    }
}

/// A blank as wide as each byte: a tab for a tab, else a space.
fn padding(alloc: Global, bytes: &[u8]) -> Result<Vec<u8>, AllocError>
    ensures { IfOk result (λ blanks. blanks.items ≡ map padded_as bytes.now) }
{
    bytes.iter().map(|byte| blank_below(*byte)).collect(alloc)
}

fn blank_below(byte: u8) -> u8
    ensures { result ≡ padded_as byte }
{
    if byte == b'\t' { b'\t' } else { b' ' }
}

fn push_repeated(output: &mut Vec<u8>, byte: u8, count: usize) -> Result<(), AllocError> {
    for _ in 0..count {
        output.push(byte)?;
    }
    Ok(())
}
