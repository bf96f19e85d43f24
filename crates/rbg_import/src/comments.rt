//! Comments of the paper's language: what begins with `//`, and what is between `/*` and `*/`.
ghost use Rattle.std.specs.Prelude.{◌≡◌, ◌↔◌, ℕ, ◌+◌, ◌<◌, ◌≤◌, ◌≢◌, ◌++◌, IfNone, IfSome, IsTrue, OnOk, length, slice_index};
ghost use Rattle.std.specs.List.{flat_map};
ghost use Rattle.rbg_import.specs.Comments.{AddsRewritten, StandsAt, commented, commented_byte, ends_line, feed_before, is_space};
ghost use Rattle.rbg_import.specs.Parts.{AddsPart, IsPart};

use std::alloc::{AllocError, Global};

/// What some bytes begin with.
#[derive(Clone, Copy, PartialEq, Eq)]
enum PartKind {
    /// A byte outside of comments.
    Plain,
    /// A comment that begins with `//`, up to its line feed.
    Line,
    /// A comment between marks.
    Block,
    /// A comment that isn't closed.
    Open,
}

/// What begins at an offset, and the offset after it.
#[derive(Clone, Copy)]
struct Part {
    kind: PartKind,
    end: usize,
}

/// What begins at an offset.
fn part_at(bytes: &[u8], at: usize) -> Part
    requires { at < length bytes.now }
    ensures { IsPart bytes.now at result }
{
    if stands_at(bytes, at, b'/', b'/') {
        return Part {
            kind: PartKind::Line,
            end: line_end(bytes, at + 2),
        };
    }
    if stands_at(bytes, at, b'/', b'*') {
        return block_part(bytes, at);
    }
    Part {
        kind: PartKind::Plain,
        end: at + 1,
    }
}

/// Whether these two bytes are at an offset.
fn stands_at(bytes: &[u8], at: usize, first: u8, second: u8) -> bool
    requires { at < length bytes.now }
    ensures { IsTrue result ↔ StandsAt bytes.now at first second }
{
    bytes.len() - at > 1 && bytes[at] == first && bytes[at + 1] == second
}

/// The end of the line, from an offset on.
fn line_end(bytes: &[u8], from: usize) -> usize
    requires { from ≤ length bytes.now }
    ensures after { from ≤ result }
    ensures within { result ≤ length bytes.now }
    ensures one_line { (k : ℕ) → from ≤ k → k < result → slice_index bytes.now k ≢ 10 }
    ensures ends { result < length bytes.now → slice_index bytes.now result ≡ 10 }
{
    for index in from..bytes.len() {
        if bytes[index] == b'\n' {
            return index;
        }
    }
    bytes.len()
}

/// The comment whose `/*` is at an offset.
fn block_part(bytes: &[u8], at: usize) -> Part
    requires { StandsAt bytes.now at 47 42 }
    ensures { IsPart bytes.now at result }
{
    match body_end(bytes, at + 2) {
        Some(index) => Part {
            kind: PartKind::Block,
            end: index + 2,
        },
        None => Part {
            kind: PartKind::Open,
            end: bytes.len(),
        },
    }
}

/// The offset of the first `*/` from an offset on.
fn body_end(bytes: &[u8], from: usize) -> Option<usize>
    requires { from ≤ length bytes.now }
    ensures after { IfSome result (λ index. from ≤ index) }
    ensures found { IfSome result (λ index. StandsAt bytes.now index 42 47) }
    ensures first { IfSome result (λ index. (k : ℕ) → from ≤ k → k < index → StandsAt bytes.now k 42 47 → ⊥) }
    ensures none { IfNone result ((k : ℕ) → from ≤ k → StandsAt bytes.now k 42 47 → ⊥) }
{
    for index in from..bytes.len() {
        if stands_at(bytes, index, b'*', b'/') {
            return Some(index);
        }
    }
    None
}

/// A text whose comments are blanks.
#[derive(Drop)]
pub(crate) struct Plain {
    /// As many bytes as the text has, with its line feeds.
    pub bytes: Vec<u8>,
    /// The offset of a comment that isn't closed.
    pub open: Option<usize>,
}

/// The text with blanks in place of its comments, and of zero bytes.
pub(crate) fn plain_text(alloc: Global, text: &[u8]) -> Result<Plain, AllocError> {
    let mut plain = Plain {
        bytes: Vec::new(alloc),
        open: None,
    };
    let mut at = 0usize;
    while at < text.len() {
        let part = part_at(text, at);
        if part.kind == PartKind::Open {
            plain.open = Some(at);
        }
        push_plain(text, at, part, &mut plain.bytes)?;
        at = part.end;
    }
    Ok(plain)
}

/// Adds the part at an offset, with blanks in place of a comment.
fn push_plain(bytes: &[u8], at: usize, part: Part, output: &mut Vec<u8>) -> Result<(), AllocError> {
    for byte in bytes.get(at..part.end).unwrap_or(&[]) {
        let is_kept = *byte == b'\n' || part.kind == PartKind::Plain && *byte != 0;
        output.push(if is_kept { *byte } else { b' ' })?;
    }
    Ok(())
}

/// Adds bytes with comments that begin with `//` in place of those between marks.
pub(crate) fn push_rewritten(bytes: &[u8], output: &mut Vec<u8>) -> Result<(), AllocError>
    ensures { OnOk result (AddsRewritten bytes.now output.old.items output.new.items) }
{
    let mut at = 0usize;
    while at < bytes.len() {
        let part = part_at(bytes, at);
        push_part(bytes, at, part, output)?;
        at = part.end;
    }
    Ok(())
}

/// Adds what the part at an offset becomes.
fn push_part(bytes: &[u8], at: usize, part: Part, output: &mut Vec<u8>) -> Result<(), AllocError>
    requires { IsPart bytes.now at part }
    ensures { OnOk result (AddsPart bytes.now at part.end output.old.items output.new.items) }
{
    match part.kind {
        PartKind::Plain => output.extend_from_slice(&bytes[at..part.end]),
        PartKind::Line => output.extend_from_slice(&bytes[at..part.end]),
        PartKind::Open => output.extend_from_slice(&bytes[at..part.end]),
        PartKind::Block => push_block(bytes, at, part.end, output),
    }
}

/// Adds what a comment between marks becomes.
fn push_block(bytes: &[u8], at: usize, end: usize, output: &mut Vec<u8>) -> Result<(), AllocError>
    requires { IsPart bytes.now at (record { kind = PartKind.Block; end = end }) }
    ensures { OnOk result (AddsPart bytes.now at end output.old.items output.new.items) }
{
    push_commented(bytes[at + 2..end - 2].trim_ascii_end(), output)?;
    push_feed(&bytes[end..], output)
}

/// Adds each line of a comment with `//` before it.
fn push_commented(body: &[u8], output: &mut Vec<u8>) -> Result<(), AllocError>
    ensures { OnOk result (output.new.items ≡ output.old.items ++ commented body.now) }
{
    output.extend_from_slice(b"//")?;
    push_commented_bytes(body, output)
}

fn push_commented_bytes(body: &[u8], output: &mut Vec<u8>) -> Result<(), AllocError>
    ensures { OnOk result (output.new.items ≡ output.old.items ++ flat_map commented_byte body.now) }
{
    for byte in body {
        push_commented_byte(*byte, output)?;
    }
    Ok(())
}

/// Adds a byte of a comment, and after a line feed `//`.
fn push_commented_byte(byte: u8, output: &mut Vec<u8>) -> Result<(), AllocError>
    ensures { OnOk result (output.new.items ≡ output.old.items ++ commented_byte byte) }
{
    output.push(byte)?;
    output.extend_from_slice(if byte == b'\n' { b"//" } else { b"" })
}

/// Adds a line feed, unless the line ends after a comment anyway.
fn push_feed(rest: &[u8], output: &mut Vec<u8>) -> Result<(), AllocError>
    ensures { OnOk result (output.new.items ≡ output.old.items ++ feed_before rest.now) }
{
    output.extend_from_slice(if ends_line(rest) { b"" } else { b"\n" })
}

/// Whether there is a line feed, and nothing but spaces before it.
fn ends_line(rest: &[u8]) -> bool
    ensures { result ≡ ends_line rest.now }
{
    for byte in rest {
        if *byte == b'\n' {
            return true;
        }
        if !is_space(*byte) {
            return false;
        }
    }
    false
}

fn is_space(byte: u8) -> bool
    ensures { result ≡ is_space byte }
{
    byte == b' ' || byte == b'\t' || byte == b'\r'
}

/// Adds the comments among some bytes, each in lines of its own.
pub(crate) fn push_comments(bytes: &[u8], output: &mut Vec<u8>) -> Result<(), AllocError> {
    let mut at = 0usize;
    while at < bytes.len() {
        let part = part_at(bytes, at);
        push_comment(bytes, at, part, output)?;
        at = part.end;
    }
    Ok(())
}

/// Adds the part at an offset, if it is a comment, and a line feed.
fn push_comment(
    bytes: &[u8],
    at: usize,
    part: Part,
    output: &mut Vec<u8>,
) -> Result<(), AllocError> {
    let whole = bytes.get(at..part.end).unwrap_or(&[]);
    match part.kind {
        PartKind::Plain | PartKind::Open => return Ok(()),
        PartKind::Line => output.extend_from_slice(whole.trim_ascii_end())?,
        PartKind::Block => push_commented(inside(whole).trim_ascii_end(), output)?,
    }
    output.extend_from_slice(b"\n")
}

/// What is between the marks of a comment.
fn inside(comment: &[u8]) -> &[u8] {
    comment
        .get(2..comment.len().saturating_sub(2))
        .unwrap_or(&[])
}
