//! Another layout of a text: blanks at the beginning and the end of lines, and empty lines. The tokens stay.
ghost use Rattle.std.specs.Prelude.{◌≡◌, IfOk, IfSome, IsTrue, map};
ghost use Rattle.rbg_lsp.specs.Formatting.{HasSameTokens, spelled_as};

use rbg_base::is_name_part;
use rbg_macro::{TextError, Token, tokens};
use std::alloc::{AllocError, Global};

/// The maximum number of brackets for which a line is indented.
const MOST: usize = 20;

/// A text in the usual layout. A line that begins with `#` has no blanks before it. The other lines of a definition
/// have four spaces, and two more for each bracket that is open; two less if they begin with `+` or a closing bracket.
/// The lines of a board keep their blanks, which may show its form. Comments are indented as the line below them. No
/// line ends with a blank, no two lines in a row are empty, and the last line has a line feed. Returns None if the text
/// can't be cut into tokens.
pub fn formatted(alloc: Global, text: &[u8]) -> Result<Option<Vec<u8>>, AllocError>
    ensures { IfOk result (λ o. IfSome o (λ laid. HasSameTokens text.now laid.items)) }
{
    let laid = laid_out(alloc, text)?;
    if has_same_tokens(alloc, text, &laid)? {
        Ok(Some(laid))
    } else {
        Ok(None)
    }
}

/// Whether both texts can be cut into tokens, which are the same but for their offsets.
fn has_same_tokens(alloc: Global, old: &[u8], new: &[u8]) -> Result<bool, AllocError>
    ensures { IfOk result (λ b. IsTrue b → HasSameTokens old.now new.now) }
{
    let old_tokens = match tokens(alloc, old) {
        Ok(tokens) => tokens,
        Err(TextError::Memory) => return Err(AllocError),
        Err(_) => return Ok(false),
    };
    let new_tokens = match tokens(alloc, new) {
        Ok(tokens) => tokens,
        Err(TextError::Memory) => return Err(AllocError),
        Err(_) => return Ok(false),
    };
    Ok(are_same(old_tokens.as_slice(), new_tokens.as_slice()))
}

/// Whether tokens are of the same kinds and texts.
fn are_same(old: &[Token<'_>], new: &[Token<'_>]) -> bool
    ensures { IsTrue result → map spelled_as old.now ≡ map spelled_as new.now }
{
    if old.len() != new.len() {
        return false;
    }
    for index in 0..old.len() {
        if !is_alike(&old[index], &new[index]) {
            return false;
        }
    }
    true
}

/// Whether two tokens are of the same kind and text.
fn is_alike(old: &Token<'_>, new: &Token<'_>) -> bool
    ensures { IsTrue result → spelled_as old.now ≡ spelled_as new.now }
{
    old.kind == new.kind && old.text == new.text
}

/// The text in the usual layout.
fn laid_out(alloc: Global, text: &[u8]) -> Result<Vec<u8>, AllocError> {
    let mut output = Vec::new(alloc);
    push_laid_out(alloc, text, &mut output)?;
    Ok(output)
}

fn push_laid_out(alloc: Global, text: &[u8], output: &mut Vec<u8>) -> Result<(), AllocError> {
    let mut layout = Layout {
        waiting: Vec::new(alloc),
        output,
        depth: 0,
        part: Part::Front,
    };
    let mut start = 0usize;
    for (index, byte) in text.iter().enumerate() {
        if *byte == b'\n' {
            layout.line(text.get(start..index).unwrap_or(&[]))?;
            start = index.saturating_add(1);
        }
    }
    layout.line(text.get(start..).unwrap_or(&[]))?;
    let _is_owed = layout.flush(0)?;
    Ok(())
}

/// A text that is laid out line by line.
#[derive(Drop)]
struct Layout<'a, 'o> {
    /// Comments and empty lines that weren't written yet.
    waiting: Vec<&'a [u8]>,
    output: &'o mut Vec<u8>,
    /// How many brackets are open.
    depth: usize,
    part: Part,
}

/// What part of a text a line belongs to.
#[derive(Clone, Copy)]
enum Part {
    /// The text before the first definition.
    Front,
    Board,
    /// Another section, or a macro.
    Other,
}

impl<'a> Layout<'a, '_> {
    /// Takes a line of the text, without its line feed.
    fn line(&mut self, line: &'a [u8]) -> Result<(), AllocError> {
        let content = line.trim_ascii();
        if content.is_empty() || content.starts_with(b"//") {
            self.waiting.push(content)?;
            return Ok(());
        }
        let indent = self.indent(line, content);
        let is_owed = self.flush(indent)?;
        push_empty(self.output, is_owed)?;
        push_line(self.output, indent, content)?;
        self.pass(content);
        Ok(())
    }

    /// How many spaces are before a line that is no comment.
    fn indent(&self, line: &[u8], content: &[u8]) -> usize {
        let depth = self.depth.min(MOST);
        match (self.part, content.first().copied()) {
            (_, Some(b'#') | None) | (Part::Front, _) => 0,
            (Part::Board, _) => line.len().saturating_sub(line.trim_ascii_start().len()),
            (Part::Other, Some(b'+' | b')' | b']' | b'}')) => 2 * depth + 2,
            (Part::Other, Some(_)) => 2 * depth + 4,
        }
    }

    /// Passes a line: counts the brackets that it opens and closes.
    fn pass(&mut self, content: &[u8]) {
        for (index, byte) in content.iter().enumerate() {
            match *byte {
                b'#' => {
                    self.depth = 0;
                    self.part = part_after(content.get(index.saturating_add(1)..).unwrap_or(&[]));
                }
                b'(' | b'[' | b'{' => self.depth = self.depth.saturating_add(1),
                b')' | b']' | b'}' => self.depth = self.depth.saturating_sub(1),
                b'/' if content.get(index.saturating_add(1)).copied() == Some(b'/') => return,
                _ => {}
            }
        }
    }

    /// Writes the lines that wait, with the indentation of the next line. Returns whether an empty line comes before
    /// that one.
    fn flush(&mut self, indent: usize) -> Result<bool, AllocError> {
        let mut is_owed = false;
        for line in &self.waiting {
            if line.is_empty() {
                is_owed = !self.output.is_empty();
            } else {
                push_empty(self.output, is_owed)?;
                push_line(self.output, indent, line)?;
                is_owed = false;
            }
        }
        self.waiting.clear();
        Ok(is_owed)
    }
}

/// The part that begins with these bytes.
fn part_after(bytes: &[u8]) -> Part {
    let name = bytes.trim_ascii_start();
    let is_longer = match name.get(5) {
        Some(byte) => is_name_part(*byte),
        None => false,
    };
    if name.starts_with(b"board") && !is_longer {
        Part::Board
    } else {
        Part::Other
    }
}

/// Adds an empty line, if there is to be one.
fn push_empty(output: &mut Vec<u8>, is_owed: bool) -> Result<(), AllocError> {
    if is_owed {
        output.push(b'\n')?;
    }
    Ok(())
}

/// Adds a line with this many spaces before it.
fn push_line(output: &mut Vec<u8>, indent: usize, content: &[u8]) -> Result<(), AllocError> {
    for _ in 0..indent {
        output.push(b' ')?;
    }
    output.extend_from_slice(content)?;
    output.push(b'\n')?;
    Ok(())
}
