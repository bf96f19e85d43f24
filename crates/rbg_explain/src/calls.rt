//! Where a macro is called in a text.

use rbg_lint::{Diagnostic, MessageWriter, before_first, has_text, is_at};
use rbg_macro::{Symbol, Token, count_line_feeds};
use std::alloc::{AllocError, Global};

/// The numbers of the lines of these offsets, which are in order of the text, each once.
fn lines_of(alloc: Global, text: &[u8], offsets: &[usize]) -> Result<Vec<usize>, AllocError> {
    let mut lines = Vec::new(alloc);
    push_lines(text, offsets, &mut lines)?;
    Ok(lines)
}

/// Adds the numbers of the lines of these offsets, which are in order of the text, each once.
fn push_lines(text: &[u8], offsets: &[usize], lines: &mut Vec<usize>) -> Result<(), AllocError> {
    let mut number = 1usize;
    let mut start = 0usize;
    let mut last = 0usize;
    for offset in offsets {
        let between = text.get(start..*offset).unwrap_or(&[]);
        number = number.saturating_add(count_line_feeds(between));
        start = *offset;
        if number != last {
            lines.push(number)?;
            last = number;
        }
    }
    Ok(())
}

/// The offsets at which a macro is called, in order of the text. A call whose name is joined isn't found.
pub(crate) fn calls_of(
    alloc: Global,
    tokens: &[Token<'_>],
    name: &[u8],
) -> Result<Vec<usize>, AllocError> {
    let mut found = Vec::new(alloc);
    push_all_calls(tokens, name, &mut found)?;
    Ok(found)
}

/// Adds the offsets at which the definitions call a macro.
fn push_all_calls(
    tokens: &[Token<'_>],
    name: &[u8],
    found: &mut Vec<usize>,
) -> Result<(), AllocError> {
    for index in 0..tokens.len() {
        if is_at(tokens, index, Symbol::Hash) {
            let after = tokens.get(index.saturating_add(1)..).unwrap_or(&[]);
            push_calls_among(body(after, name), name, found)?;
        }
    }
    Ok(())
}

/// The body of the definition after a `#`, from its `=`. None where a parameter of this name hides the macro.
fn body<'a>(tokens: &'a [Token<'a>], hidden: &[u8]) -> &'a [Token<'a>] {
    let definition = before_first(tokens, Symbol::Hash);
    let head = before_first(definition, Symbol::Equals);
    if has_text(head.get(1..).unwrap_or(&[]), hidden) {
        &[]
    } else {
        definition.get(head.len()..).unwrap_or(&[])
    }
}

/// Adds the offsets at which these tokens of a body call a macro.
fn push_calls_among(
    body: &[Token<'_>],
    name: &[u8],
    found: &mut Vec<usize>,
) -> Result<(), AllocError> {
    for (index, token) in body.iter().enumerate() {
        if token.text == name && !is_joined(body, index) {
            found.push(token.at)?;
        }
    }
    Ok(())
}

/// Whether a `~` stands beside a token.
fn is_joined(tokens: &[Token<'_>], index: usize) -> bool {
    is_at(tokens, index.saturating_add(1), Symbol::Tilde)
        || is_at(tokens, index.saturating_sub(1), Symbol::Tilde)
}

/// Adds to a fault on which lines a macro is called, if it is called.
pub(crate) fn relate_calls(
    alloc: Global,
    fault: &mut Diagnostic,
    text: &[u8],
    tokens: &[Token<'_>],
    name: &[u8],
) -> Result<(), AllocError> {
    let calls = calls_of(alloc, tokens, name)?;
    match calls.first() {
        Some(first) => fault.relate(*first, name.len(), call_words(alloc, text, &calls)?),
        None => Ok(()),
    }
}

/// On which lines the calls at these offsets are.
fn call_words(alloc: Global, text: &[u8], calls: &[usize]) -> Result<Vec<u8>, AllocError> {
    let lines = lines_of(alloc, text, calls)?;
    let mut words = Vec::new(alloc);
    let mut writer = MessageWriter::new(alloc, &mut words);
    write_lines(&mut writer, &lines);
    writer.end()?;
    Ok(words)
}

/// Writes the lines of calls, if there are any.
fn write_lines(writer: &mut MessageWriter<'_>, lines: &[usize]) {
    match lines {
        [] => {}
        [line] => writer.number("called on line ", *line, ""),
        [first, others @ ..] => {
            writer.number("called on lines ", *first, "");
            write_others(writer, others);
        }
    }
}

/// Writes the lines of calls after the first one.
fn write_others(writer: &mut MessageWriter<'_>, lines: &[usize]) {
    match lines {
        [] => {}
        [line] => writer.number(" and ", *line, ""),
        [line, others @ ..] => {
            writer.number(", ", *line, "");
            writer.number(" and ", others.len(), " more");
        }
    }
}
