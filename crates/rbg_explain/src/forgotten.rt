//! Heads of definitions without their `#`.

use rbg_lint::{Definition, Diagnostic, MessageWriter, Severity, definitions, index_of, is_at};
use rbg_macro::{Symbol, Token};
use std::alloc::{AllocError, Global};

/// Adds each head without its `#`: a name at the beginning of a line, outside of brackets, with a `=` after it or after its
/// parameters. What comes before the first `#` of the text is left out.
pub(crate) fn push_forgotten(
    alloc: Global,
    text: &[u8],
    tokens: &[Token<'_>],
    found: &mut Vec<Diagnostic>,
) -> Result<(), AllocError> {
    let definitions = definitions(alloc, tokens)?;
    for definition in &definitions {
        push_heads(alloc, text, definition, found)?;
    }
    Ok(())
}

/// Adds the heads in the body of a definition.
fn push_heads(
    alloc: Global,
    text: &[u8],
    definition: &Definition<'_>,
    found: &mut Vec<Diagnostic>,
) -> Result<(), AllocError> {
    let mut open = 0usize;
    let mut last = definition.equals.at;
    for (index, token) in definition.body.iter().enumerate() {
        let rest = definition.body.get(index..).unwrap_or(&[]);
        if open == 0 && is_head(rest) && has_line_feed(text, last, token.at) {
            push_head(alloc, *token, found)?;
        }
        if token.kind.opens() {
            open = open.saturating_add(1);
        } else if token.kind.closes() {
            open = open.saturating_sub(1);
        }
        last = token.at;
    }
    Ok(())
}

/// Whether tokens begin with a head that has no `#`.
fn is_head(tokens: &[Token<'_>]) -> bool {
    match tokens {
        [name, next, rest @ ..] if name.kind.is_name() => {
            next.is(Symbol::Equals) || next.is(Symbol::OpenParenthesis) && ends_head(rest)
        }
        _ => false,
    }
}

/// Whether the first `)` has a `=` after it.
fn ends_head(parameters: &[Token<'_>]) -> bool {
    match index_of(parameters, Symbol::CloseParenthesis) {
        Some(close) => is_at(parameters, close.saturating_add(1), Symbol::Equals),
        None => false,
    }
}

/// Whether a line ends between two offsets.
fn has_line_feed(text: &[u8], start: usize, end: usize) -> bool {
    let between = text.get(start..end).unwrap_or(&[]);
    between.contains(&b'\n')
}

/// Adds that a `#` is missing before a name.
fn push_head(
    alloc: Global,
    name: Token<'_>,
    found: &mut Vec<Diagnostic>,
) -> Result<(), AllocError> {
    let mut fault = Diagnostic::new(
        alloc,
        Severity::Fault,
        "MissingHash",
        name.at,
        name.text.len(),
    );
    let mut writer = MessageWriter::new(alloc, &mut fault.message);
    writer.named("a `#` seems to be missing before ", name.text, "");
    writer.end()?;
    found.push(fault)?;
    Ok(())
}
