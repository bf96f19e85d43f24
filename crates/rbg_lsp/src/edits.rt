//! Edits of a text.
ghost use Rattle.std.specs.Prelude.{◌≡◌, ◌≤◌, ◌++◌, IfOk, take, drop, length};

use crate::words::Span;
use std::alloc::{AllocError, Global};

/// The text with other bytes in place of those from one offset to another one.
pub(crate) fn replaced(
    alloc: Global,
    text: &[u8],
    start: usize,
    end: usize,
    bytes: &[u8],
) -> Result<Vec<u8>, AllocError>
    requires order { start ≤ end }
    requires within { end ≤ length text.now }
    ensures { IfOk result (λ edited.
        edited.items ≡ take start text.now ++ bytes.now ++ drop end text.now) }
{
    let mut edited = Vec::new(alloc);
    edited.extend_from_slice(&text[..start])?;
    edited.extend_from_slice(bytes)?;
    edited.extend_from_slice(&text[end..])?;
    Ok(edited)
}

/// An edit that makes one text of another: what it takes the place of, and which part of the new text.
#[derive(Clone, Copy)]
pub(crate) struct Change {
    pub old: Span,
    pub new: Span,
}

/// The smallest edit that makes the second text of the first one, None if they are the same.
pub(crate) fn change_between(old: &[u8], new: &[u8]) -> Option<Change> {
    let start = common_front(old, new);
    let old_rest = rest(old, start);
    let new_rest = rest(new, start);
    if old_rest.is_empty() && new_rest.is_empty() {
        return None;
    }
    let end = common_end(old_rest, new_rest);
    Some(Change {
        old: Span {
            start,
            end: old.len().saturating_sub(end),
        },
        new: Span {
            start,
            end: new.len().saturating_sub(end),
        },
    })
}

/// The bytes from an offset on.
fn rest(bytes: &[u8], start: usize) -> &[u8] {
    bytes.get(start..).unwrap_or(&[])
}

/// How many bytes at the front are the same.
fn common_front(old: &[u8], new: &[u8]) -> usize {
    for (index, byte) in old.iter().enumerate() {
        if new.get(index).copied() != Some(*byte) {
            return index;
        }
    }
    old.len()
}

/// How many bytes at the end are the same.
fn common_end(old: &[u8], new: &[u8]) -> usize {
    let most = old.len().min(new.len());
    for count in 0..most {
        if byte_from_end(old, count) != byte_from_end(new, count) {
            return count;
        }
    }
    most
}

/// The byte before the last `count` bytes.
fn byte_from_end(bytes: &[u8], count: usize) -> Option<u8> {
    let after = count.saturating_add(1);
    let index = bytes.len().checked_sub(after)?;
    bytes.get(index).copied()
}
