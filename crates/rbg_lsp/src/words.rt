//! The words of a text: its tokens, even if some bytes begin none.

use rbg_macro::{MAX_TEXT, TextError, Token, TokenKind, tokens};
use std::alloc::{AllocError, Global};

/// A part of a text, by its offsets.
#[derive(Clone, Copy)]
pub(crate) struct Span {
    pub start: usize,
    /// The offset after its last byte.
    pub end: usize,
}

/// A token of a text, by its place.
#[derive(Clone, Copy)]
pub(crate) struct Word {
    pub kind: TokenKind,
    pub span: Span,
}

/// The bytes of a part of a text.
pub(crate) fn bytes_at(text: &[u8], span: Span) -> &[u8] {
    text.get(span.start..span.end).unwrap_or(&[])
}

/// The bytes of the word with this index, none if there is no such word.
pub(crate) fn word_bytes<'a>(text: &'a [u8], words: &[Word], index: usize) -> &'a [u8] {
    match words.get(index) {
        Some(word) => bytes_at(text, word.span),
        None => &[],
    }
}

/// Whether the word with this index is of this kind.
pub(crate) fn is_word(words: &[Word], index: usize, kind: TokenKind) -> bool {
    match words.get(index) {
        Some(word) => word.kind == kind,
        None => false,
    }
}

/// The index of the word that begins at an offset.
pub(crate) fn index_of_start(words: &[Word], at: usize) -> Option<usize> {
    let index = count_up_to(words, at).checked_sub(1)?;
    let word = words.get(index)?;
    if word.span.start == at {
        Some(index)
    } else {
        None
    }
}

/// How many words begin at an offset or before it.
pub(crate) fn count_up_to(words: &[Word], at: usize) -> usize {
    words.partition_point(|word| word.span.start <= at)
}

/// The index of the word at an offset: the one that holds it, or else the one that ends there.
pub(crate) fn index_around(words: &[Word], at: usize) -> Option<usize> {
    let index = count_up_to(words, at).checked_sub(1)?;
    let word = words.get(index)?;
    let is_edge = word.span.start == at && !word.kind.is_name();
    if is_edge
        && let Some(before) = index.checked_sub(1)
        && touches(words, before, at)
    {
        return Some(before);
    }
    if at <= word.span.end {
        Some(index)
    } else {
        None
    }
}

/// Whether a name ends at an offset.
fn touches(words: &[Word], index: usize, at: usize) -> bool {
    match words.get(index) {
        Some(word) => word.span.end == at && word.kind.is_name(),
        None => false,
    }
}

/// Adds the words of a text. Bytes that begin no token are skipped, and so are zero bytes. A text that is too long has
/// none.
pub(crate) fn push_words(
    alloc: Global,
    text: &[u8],
    words: &mut Vec<Word>,
) -> Result<(), AllocError> {
    let mut start = 0usize;
    if text.len() > MAX_TEXT {
        return Ok(());
    }
    for _ in 0..=MAX_TEXT {
        let rest = text.get(start..).unwrap_or(&[]);
        match push_up_to_fault(alloc, rest, start, words)? {
            Some(len) => start = start.saturating_add(len).saturating_add(1),
            None => return Ok(()),
        }
    }
    Ok(())
}

/// Adds the words of bytes up to the first one that begins no token, and returns how many bytes are before it. The
/// bytes begin at an offset of their text.
fn push_up_to_fault(
    alloc: Global,
    bytes: &[u8],
    start: usize,
    words: &mut Vec<Word>,
) -> Result<Option<usize>, AllocError> {
    let fault = match tokens(alloc, bytes) {
        Ok(tokens) => {
            push_tokens(tokens.as_slice(), start, words)?;
            return Ok(None);
        }
        Err(error) => error,
    };
    let len = len_before(fault, bytes)?;
    push_front(alloc, bytes.get(..len).unwrap_or(&[]), start, words)?;
    Ok(Some(len))
}

/// How many bytes are before the one that a text is refused for.
fn len_before(fault: TextError, bytes: &[u8]) -> Result<usize, AllocError> {
    match fault {
        TextError::BadByte { at } => Ok(at),
        TextError::ZeroByte => Ok(first_zero(bytes)),
        TextError::TooLong => Ok(bytes.len()),
        TextError::Memory => Err(AllocError),
    }
}

/// How many bytes are before the first zero byte.
fn first_zero(bytes: &[u8]) -> usize {
    for (index, byte) in bytes.iter().enumerate() {
        if *byte == 0 {
            return index;
        }
    }
    bytes.len()
}

/// Adds the words of bytes that have no fault.
fn push_front(
    alloc: Global,
    bytes: &[u8],
    start: usize,
    words: &mut Vec<Word>,
) -> Result<(), AllocError> {
    match tokens(alloc, bytes) {
        Ok(tokens) => push_tokens(tokens.as_slice(), start, words),
        Err(TextError::Memory) => Err(AllocError),
        Err(_) => Ok(()),
    }
}

/// Adds tokens of bytes that begin at an offset of their text.
fn push_tokens(
    tokens: &[Token<'_>],
    start: usize,
    words: &mut Vec<Word>,
) -> Result<(), AllocError> {
    for token in tokens {
        let at = start.saturating_add(token.at);
        let end = at.saturating_add(token.text.len());
        words.push(Word {
            kind: token.kind,
            span: Span { start: at, end },
        })?;
    }
    Ok(())
}
