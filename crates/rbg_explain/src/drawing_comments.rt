//! Comment lines that say how a board is drawn, and do nothing.

use crate::boards::stands_before;
use rbg_lint::{Diagnostic, MessageWriter, Severity, has_text, is_at, section_tokens};
use rbg_macro::{SectionKind, Source, Symbol, Token};
use std::alloc::{AllocError, Global};

/// A word of a comment, and its offset in the text.
#[derive(Clone, Copy)]
struct Word<'a> {
    at: usize,
    text: &'a [u8],
}

/// The sections whose names such comments have.
#[derive(Clone, Copy)]
struct Drawn<'a> {
    board: &'a [Token<'a>],
    pieces: &'a [Token<'a>],
}

impl<'a> Drawn<'a> {
    fn has_vertex(&self, name: &[u8]) -> bool {
        stands_before(self.board, name, Symbol::OpenBracket)
    }

    /// The first vertex that isn't among these.
    fn vertex_beside(&self, placed: &[Word<'_>]) -> Option<Token<'a>> {
        for (index, token) in self.board.iter().enumerate() {
            let is_vertex = is_at(self.board, index.saturating_add(1), Symbol::OpenBracket);
            if is_vertex && token.kind.is_name() && !is_among(placed, token.text) {
                return Some(*token);
            }
        }
        None
    }
}

/// Whether one of these words has a text.
fn is_among(words: &[Word<'_>], text: &[u8]) -> bool {
    for word in words {
        if word.text == text {
            return true;
        }
    }
    false
}

/// Adds the comment lines `// layout ..` and `// piece ..` that can't be read, or whose names the game hasn't.
pub(crate) fn push_comments(
    alloc: Global,
    text: &[u8],
    source: &Source<'_>,
    found: &mut Vec<Diagnostic>,
) -> Result<(), AllocError> {
    let board = section_tokens(alloc, source, SectionKind::Board)?;
    let pieces = section_tokens(alloc, source, SectionKind::Pieces)?;
    let drawn = Drawn {
        board: &board,
        pieces: &pieces,
    };
    let mut placed = Vec::new(alloc);
    push_lines(alloc, text, drawn, &mut placed, found)?;
    push_missing(alloc, drawn, &placed, found)
}

/// Adds the faulty comments among the lines, and the vertices that the others place.
fn push_lines<'t>(
    alloc: Global,
    text: &'t [u8],
    drawn: Drawn<'_>,
    placed: &mut Vec<Word<'t>>,
    found: &mut Vec<Diagnostic>,
) -> Result<(), AllocError> {
    let mut start = 0usize;
    for line in text.split(|byte| *byte == b'\n') {
        if let Some(comment) = line.trim_ascii_start().strip_prefix(b"//") {
            let before = line.len().saturating_sub(comment.len());
            let words = words_of(alloc, comment, start.saturating_add(before))?;
            push_comment(alloc, drawn, &words, placed, found)?;
        }
        start = start.saturating_add(line.len()).saturating_add(1);
    }
    Ok(())
}

/// The words of a comment at an offset.
fn words_of(alloc: Global, comment: &[u8], at: usize) -> Result<Vec<Word<'_>>, AllocError> {
    let mut words = Vec::new(alloc);
    let mut start = at;
    for word in comment.split(|byte| byte.is_ascii_whitespace()) {
        if !word.is_empty() {
            words.push(Word {
                at: start,
                text: word,
            })?;
        }
        start = start.saturating_add(word.len()).saturating_add(1);
    }
    Ok(words)
}

/// Adds what is wrong with a comment, or the vertices that it places.
fn push_comment<'t>(
    alloc: Global,
    drawn: Drawn<'_>,
    words: &[Word<'t>],
    placed: &mut Vec<Word<'t>>,
    found: &mut Vec<Diagnostic>,
) -> Result<(), AllocError> {
    match words {
        [first, wish] if is_text(*first, b"layout") => push_wish(alloc, *wish, found),
        [first, places @ ..] if is_text(*first, b"layout") && are_places(drawn, places) => {
            push_places(alloc, drawn, places, placed, found)
        }
        [first, places @ ..] if begins_places(places) && places_vertex(drawn, places) => {
            push_word(alloc, *first, ["did you mean `layout` by ", "?"], found)
        }
        [first, name] | [first, name, _] if is_text(*first, b"piece") => {
            push_piece(alloc, drawn, *name, found)
        }
        _ => Ok(()),
    }
}

fn is_text(word: Word<'_>, text: &[u8]) -> bool {
    word.text == text
}

/// Whether words after `layout` are to be places, and not a sentence: they begin with a vertex, or have two numbers after
/// the first word.
fn are_places(drawn: Drawn<'_>, words: &[Word<'_>]) -> bool {
    begins_places(words) || places_vertex(drawn, words)
}

/// Whether the first word has two numbers after it.
fn begins_places(words: &[Word<'_>]) -> bool {
    match words {
        [_, x, y, ..] => is_number(x.text) && is_number(y.text),
        _ => false,
    }
}

/// Whether the first word is a vertex.
fn places_vertex(drawn: Drawn<'_>, words: &[Word<'_>]) -> bool {
    match words.first() {
        Some(name) => drawn.has_vertex(name.text),
        None => false,
    }
}

/// Whether a word is a number of a place: digits with signs that may be beside them.
fn is_number(word: &[u8]) -> bool {
    let mut has_digit = false;
    for byte in word {
        if byte.is_ascii_digit() {
            has_digit = true;
        } else if !matches!(*byte, b'-' | b'.' | b',' | b';') {
            return false;
        }
    }
    has_digit
}

/// Adds that one word after `layout` isn't known.
fn push_wish(alloc: Global, wish: Word<'_>, found: &mut Vec<Diagnostic>) -> Result<(), AllocError> {
    if is_text(wish, b"slanted") || is_text(wish, b"points") {
        return Ok(());
    }
    let words = [
        "expected `slanted`, `points` or vertices with two numbers each, found ",
        "",
    ];
    push_word(alloc, wish, words, found)
}

/// Adds the first fault of a list of vertices with two numbers each, or else the vertices.
fn push_places<'t>(
    alloc: Global,
    drawn: Drawn<'_>,
    words: &[Word<'t>],
    placed: &mut Vec<Word<'t>>,
    found: &mut Vec<Diagnostic>,
) -> Result<(), AllocError> {
    for three in words.chunks(3) {
        let Some(name) = three.first() else {
            return Ok(());
        };
        if !begins_places(three) {
            return push_word(alloc, *name, ["expected two numbers after ", ""], found);
        }
        if drawn.has_vertex(name.text) {
            placed.push(*name)?;
        } else {
            push_word(alloc, *name, ["the board has no vertex ", ""], found)?;
        }
    }
    Ok(())
}

/// Adds that the game hasn't this piece.
fn push_piece(
    alloc: Global,
    drawn: Drawn<'_>,
    name: Word<'_>,
    found: &mut Vec<Diagnostic>,
) -> Result<(), AllocError> {
    if has_text(drawn.pieces, name.text) {
        Ok(())
    } else {
        push_word(alloc, name, ["the game has no piece ", ""], found)
    }
}

/// Adds that a vertex has no place, at the first one that has, so that no place counts.
fn push_missing(
    alloc: Global,
    drawn: Drawn<'_>,
    placed: &[Word<'_>],
    found: &mut Vec<Diagnostic>,
) -> Result<(), AllocError> {
    let Some(first) = placed.first() else {
        return Ok(());
    };
    let Some(vertex) = drawn.vertex_beside(placed) else {
        return Ok(());
    };
    let mut warning = warning_at(alloc, *first);
    let mut writer = MessageWriter::new(alloc, &mut warning.message);
    writer.named("no comment places the vertex ", vertex.text, "");
    writer.text(", so the board isn't drawn by the places of the others");
    writer.end()?;
    found.push(warning)?;
    Ok(())
}

/// Adds a warning about a word, with the word between two parts of its message.
fn push_word(
    alloc: Global,
    word: Word<'_>,
    words: [&str; 2],
    found: &mut Vec<Diagnostic>,
) -> Result<(), AllocError> {
    let [before, after] = words;
    let mut warning = warning_at(alloc, word);
    let mut writer = MessageWriter::new(alloc, &mut warning.message);
    writer.named(before, word.text, after);
    writer.end()?;
    found.push(warning)?;
    Ok(())
}

fn warning_at(alloc: Global, word: Word<'_>) -> Diagnostic {
    Diagnostic::new(
        alloc,
        Severity::Warning,
        "DrawingComment",
        word.at,
        word.text.len(),
    )
}
