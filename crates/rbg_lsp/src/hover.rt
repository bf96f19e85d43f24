//! The text that is shown for the word at a place.

use crate::analysis::{Analysis, Role, Thing};
use crate::definitions::{Definition, macro_named};
use crate::expansion::{push_positions, source_of};
use crate::kinds::{Kind, Kinds};
use crate::references::{Found, Target, found_at, kind_word};
use crate::words::{Span, Word, bytes_at, index_around};
use rbg_lint::{MessageWriter, section_tokens};
use rbg_macro::{SectionKind, Source, Symbol, Token, TokenKind, count_line_feeds};
use std::alloc::{AllocError, Global};

/// The maximum number of bytes that are shown of an expansion.
const MOST_SHOWN: usize = 600;

/// The maximum number of positions that are listed.
const MOST_POSITIONS: usize = 5;

/// The text for a word, as Markdown.
#[derive(Drop)]
pub(crate) struct Hover {
    pub span: Span,
    pub text: Vec<u8>,
}

/// The text that an editor shows for the word at an offset: what its name means, what a call of a macro expands to, and
/// the positions of the action to which it belongs.
pub(crate) fn hover_at(
    alloc: Global,
    analysis: &Analysis<'_>,
    at: usize,
) -> Result<Option<Hover>, AllocError> {
    let Some(span) = span_at(analysis, at) else {
        return Ok(None);
    };
    let mut shown = Vec::new(alloc);
    push_hover(alloc, analysis, at, span, &mut shown)?;
    if shown.is_empty() {
        return Ok(None);
    }
    Ok(Some(Hover { span, text: shown }))
}

/// The word at an offset.
fn span_at(analysis: &Analysis<'_>, at: usize) -> Option<Span> {
    let index = index_around(&analysis.words, at)?;
    Some(analysis.word(index)?.span)
}

fn push_hover(
    alloc: Global,
    analysis: &Analysis<'_>,
    at: usize,
    span: Span,
    shown: &mut Vec<u8>,
) -> Result<(), AllocError> {
    if let Some(found) = found_at(analysis, at) {
        push_target(alloc, analysis, &found, shown)?;
    }
    let mut positions = Vec::new(alloc);
    push_positions(alloc, analysis.text, span.start, &mut positions)?;
    let mut writer = MessageWriter::new(alloc, shown);
    write_positions(&mut writer, &positions);
    writer.end()
}

/// Adds what a name means.
fn push_target(
    alloc: Global,
    analysis: &Analysis<'_>,
    found: &Found<'_>,
    shown: &mut Vec<u8>,
) -> Result<(), AllocError> {
    match found.target {
        Target::Macro => push_macro(alloc, analysis, found, shown),
        _ => {
            let mut writer = MessageWriter::new(alloc, shown);
            write_target(&mut writer, analysis, found);
            writer.end()
        }
    }
}

/// Writes what a name means that is no macro.
fn write_target(writer: &mut MessageWriter<'_>, analysis: &Analysis<'_>, found: &Found<'_>) {
    match found.target {
        Target::Section(section) => {
            writer.text("section ");
            writer.whole_name(section.name().as_bytes());
            writer.text("\n\n");
        }
        Target::Parameter(definition) => {
            writer.text("parameter ");
            writer.whole_name(found.name);
            writer.text(" of the macro ");
            let name = definition.name.unwrap_or(0);
            writer.whole_name(analysis.bytes(name));
            writer.text("\n\n");
        }
        Target::Things(kinds) => write_things(writer, analysis, found.name, kinds),
        Target::Macro => {}
    }
}

/// Writes each thing of this name that is of one of these kinds.
fn write_things(
    writer: &mut MessageWriter<'_>,
    analysis: &Analysis<'_>,
    name: &[u8],
    kinds: Kinds,
) {
    for thing in &analysis.things {
        let is_named = analysis.bytes(thing.word) == name;
        if is_named && Kinds::of(thing.kind).shares(kinds) {
            write_thing(writer, analysis, *thing);
        }
    }
}

/// Writes a thing: its kind, its name, its number, and its bound.
fn write_thing(writer: &mut MessageWriter<'_>, analysis: &Analysis<'_>, thing: Thing) {
    writer.text(kind_word(thing.kind));
    writer.text(" ");
    writer.whole_name(analysis.bytes(thing.word));
    writer.text(", number ");
    writer.shown(&thing.number);
    if let Some(bound) = thing.bound {
        let before = if thing.kind == Kind::Player {
            ", score at most "
        } else {
            ", at most "
        };
        writer.text(before);
        writer.bytes(analysis.bytes(bound));
    }
    writer.text("\n\n");
}

/// Writes positions, if there are any.
fn write_positions(writer: &mut MessageWriter<'_>, positions: &[usize]) {
    match positions {
        [] => {}
        [position] => {
            writer.text("position ");
            writer.shown(position);
        }
        [first, others @ ..] => {
            writer.text("positions ");
            writer.shown(first);
            write_others(writer, others);
        }
    }
}

/// Writes positions after the first one.
fn write_others(writer: &mut MessageWriter<'_>, positions: &[usize]) {
    for position in positions.get(..MOST_POSITIONS).unwrap_or(positions) {
        writer.text(", ");
        writer.shown(position);
    }
    let left = positions.len().saturating_sub(MOST_POSITIONS);
    if left > 0 {
        writer.text(" and ");
        writer.shown(&left);
        writer.text(" more");
    }
}

/// Adds what is shown of a macro: its head, the line of its definition, and what it expands to at a call.
fn push_macro(
    alloc: Global,
    analysis: &Analysis<'_>,
    found: &Found<'_>,
    shown: &mut Vec<u8>,
) -> Result<(), AllocError> {
    let words = analysis.words.as_slice();
    let Some(definition) = macro_named(analysis.text, words, &analysis.definitions, found.name)
    else {
        return Ok(());
    };
    push_head(alloc, analysis, definition, shown)?;
    let end = match analysis.mark(found.index).role {
        Role::Replaced => found.span.end,
        Role::Called => call_end(words, found.index.saturating_add(1)),
        _ => return Ok(()),
    };
    let call = Span {
        start: found.span.start,
        end,
    };
    push_expansion(alloc, analysis, call, shown)
}

/// Adds the head of a macro, and the line on which it is.
fn push_head(
    alloc: Global,
    analysis: &Analysis<'_>,
    definition: Definition,
    shown: &mut Vec<u8>,
) -> Result<(), AllocError> {
    let mut writer = MessageWriter::new(alloc, shown);
    write_head(&mut writer, analysis, definition);
    writer.end()
}

/// Writes the head of a macro, and the line on which it is.
fn write_head(writer: &mut MessageWriter<'_>, analysis: &Analysis<'_>, definition: Definition) {
    let words = analysis.words.as_slice();
    let start = start_of(words, definition.hash.saturating_add(1));
    let end = end_before(words, definition.head_end(words));
    writer.text("macro ");
    writer.whole_name(bytes_at(analysis.text, Span { start, end }));
    writer.text(", on line ");
    let before = analysis.text.get(..start).unwrap_or(&[]);
    let line = count_line_feeds(before).saturating_add(1);
    writer.shown(&line);
    writer.text("\n\n");
}

/// The offset of the word with this index.
pub(crate) fn start_of(words: &[Word], index: usize) -> usize {
    match words.get(index) {
        Some(word) => word.span.start,
        None => 0,
    }
}

/// The offset after the word before this index.
pub(crate) fn end_before(words: &[Word], index: usize) -> usize {
    match words.get(index.saturating_sub(1)) {
        Some(word) => word.span.end,
        None => 0,
    }
}

/// The offset after the brackets that open at the word with this index.
fn call_end(words: &[Word], open: usize) -> usize {
    let mut depth = 0usize;
    for index in open..words.len() {
        let kind = match words.get(index) {
            Some(word) => word.kind,
            None => TokenKind::Name,
        };
        if kind.opens() {
            depth = depth.saturating_add(1);
        } else if kind.closes() {
            depth = depth.saturating_sub(1);
        }
        if depth == 0 || kind.is(Symbol::Hash) {
            return end_before(words, index.saturating_add(1));
        }
    }
    end_before(words, words.len())
}

/// Adds what a call of a macro expands to.
fn push_expansion(
    alloc: Global,
    analysis: &Analysis<'_>,
    call: Span,
    shown: &mut Vec<u8>,
) -> Result<(), AllocError> {
    let mut called = Vec::new(alloc);
    push_called(analysis, call, &mut called)?;
    match source_of(alloc, &called)? {
        Some(source) => push_source(alloc, &source, shown),
        None => Ok(()),
    }
}

/// Adds a text with the macros of a text, and rules that are a call.
fn push_called(
    analysis: &Analysis<'_>,
    call: Span,
    called: &mut Vec<u8>,
) -> Result<(), AllocError> {
    for definition in &analysis.definitions {
        if definition.section.is_none() {
            let span = Span {
                start: start_of(&analysis.words, definition.hash),
                end: end_before(&analysis.words, definition.end),
            };
            called.extend_from_slice(bytes_at(analysis.text, span))?;
            called.push(b'\n')?;
        }
    }
    called.extend_from_slice(b"#rules = ")?;
    called.extend_from_slice(bytes_at(analysis.text, call))
}

/// Adds the expanded rules.
fn push_source(alloc: Global, source: &Source<'_>, shown: &mut Vec<u8>) -> Result<(), AllocError> {
    let tokens = section_tokens(alloc, source, SectionKind::Rules)?;
    let mut writer = MessageWriter::new(alloc, shown);
    writer.text("expands to\n```rbg\n");
    write_tokens(&mut writer, &tokens);
    writer.text("\n```\n\n");
    writer.end()
}

/// Writes tokens, up to a limit.
fn write_tokens(writer: &mut MessageWriter<'_>, tokens: &[Token<'_>]) {
    let mut count = 0usize;
    let mut is_near = true;
    for token in tokens {
        if count > MOST_SHOWN {
            writer.text(" ..");
            return;
        }
        if !is_near && !is_close(token.kind) {
            writer.text(" ");
        }
        writer.bytes(token.text);
        count = count.saturating_add(token.text.len()).saturating_add(1);
        is_near = token.kind.opens() || is_mark(token.kind);
    }
}

/// Whether no blank comes before such a token.
fn is_close(kind: TokenKind) -> bool {
    kind.closes() || kind.is(Symbol::Comma) || kind.is(Symbol::Star) || kind.is(Symbol::Colon)
}

/// Whether no blank comes after such a token.
fn is_mark(kind: TokenKind) -> bool {
    kind.is(Symbol::Arrow) || kind.is(Symbol::Colon)
}
