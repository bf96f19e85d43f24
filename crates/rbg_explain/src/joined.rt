//! Names and numbers that `~` has joined, and the `~` that joined them.

use rbg_lint::{Diagnostic, MessageWriter, cut, expanded, line_and_column};
use rbg_macro::{Section, Source, Symbol, Token};
use std::alloc::{AllocError, Global};

/// The most `~` that are tried.
const MOST_TRIED: usize = 100;

/// A text that `~` has joined, and the offset at which it is.
#[derive(Clone, Copy)]
struct JoinedText<'a> {
    at: usize,
    text: &'a [u8],
}

/// The texts of the tokens that come from an offset, each once.
fn texts_at<'a>(
    alloc: Global,
    source: &'a Source<'_>,
    at: usize,
) -> Result<Vec<&'a [u8]>, AllocError> {
    let mut texts = Vec::new(alloc);
    for index in 0..source.len() {
        push_texts(&source.section(index), at, &mut texts)?;
    }
    Ok(texts)
}

fn push_texts<'a>(
    section: &Section<'a>,
    at: usize,
    texts: &mut Vec<&'a [u8]>,
) -> Result<(), AllocError> {
    for index in 0..section.len() {
        let token = section.token(index);
        if token.at == at && !texts.contains(&token.text) {
            texts.push(token.text)?;
        }
    }
    Ok(())
}

/// Adds to a fault at an offset, as another place, at which lines and columns the `~` stand that join this text there:
/// those without which it isn't there. The first 100 of the text are tried.
pub(crate) fn relate_joins(
    alloc: Global,
    fault: &mut Diagnostic,
    text: &[u8],
    tokens: &[Token<'_>],
    joined: &[u8],
) -> Result<(), AllocError> {
    let joined = JoinedText {
        at: fault.start,
        text: joined,
    };
    let found = joins_of(alloc, text, tokens, joined)?;
    match found.first() {
        Some(first) => fault.relate(*first, 1, join_words(alloc, text, &found)?),
        None => Ok(()),
    }
}

/// Where the `~` stand that join a text.
fn join_words(alloc: Global, text: &[u8], found: &[usize]) -> Result<Vec<u8>, AllocError> {
    let mut words = Vec::new(alloc);
    let mut writer = MessageWriter::new(alloc, &mut words);
    for (index, tilde) in found.iter().enumerate() {
        writer.text(if index == 0 {
            "joined by `~` at "
        } else {
            " and "
        });
        writer.place("", line_and_column(text, *tilde), "");
    }
    writer.end()?;
    Ok(words)
}

/// The offsets of the `~` that join a text.
fn joins_of(
    alloc: Global,
    text: &[u8],
    tokens: &[Token<'_>],
    joined: JoinedText<'_>,
) -> Result<Vec<usize>, AllocError> {
    let mut found = Vec::new(alloc);
    let mut variant = text.to_vec(alloc)?;
    push_joins(alloc, &mut variant, tokens, joined, &mut found)?;
    Ok(found)
}

/// Adds the offsets of the `~` that join a text.
fn push_joins(
    alloc: Global,
    variant: &mut Vec<u8>,
    tokens: &[Token<'_>],
    joined: JoinedText<'_>,
    found: &mut Vec<usize>,
) -> Result<(), AllocError> {
    let mut tried = 0usize;
    for token in tokens {
        if token.is(Symbol::Tilde) && tried < MOST_TRIED {
            tried = tried.saturating_add(1);
            if joins(alloc, variant, token.at, joined)? {
                found.push(token.at)?;
            }
        }
    }
    Ok(())
}

/// Whether this joined text is missing where a space stands in place of a `~`, which stands again afterwards.
fn joins(
    alloc: Global,
    text: &mut Vec<u8>,
    tilde: usize,
    joined: JoinedText<'_>,
) -> Result<bool, AllocError> {
    put_byte(text, tilde, b' ');
    let differs = is_missing(alloc, text.as_slice(), joined)?;
    put_byte(text, tilde, b'~');
    Ok(differs)
}

fn put_byte(text: &mut Vec<u8>, at: usize, new: u8) {
    if let Some(byte) = text.get_mut(at) {
        *byte = new;
    }
}

/// Whether a text can be expanded, and a joined one isn't in it.
fn is_missing(alloc: Global, text: &[u8], joined: JoinedText<'_>) -> Result<bool, AllocError> {
    let Some(tokens) = cut(alloc, text)? else {
        return Ok(false);
    };
    let Some(source) = expanded(alloc, &tokens)? else {
        return Ok(false);
    };
    let texts = texts_at(alloc, &source, joined.at)?;
    Ok(!texts.contains(&joined.text))
}
