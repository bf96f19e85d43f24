//! Brackets in the bodies of macros, each body by itself.

use crate::among::holds_offset;
use crate::definition::{Definition, definitions};
use crate::diagnostic::{Diagnostic, Severity};
use crate::message_writer::{MessageWriter, line_and_column};
use crate::names::after_head;
use rbg_macro::{Symbol, Token, TokenKind};
use std::alloc::{AllocError, Global};

/// What is wrong with the brackets among some tokens.
#[derive(Clone, Copy)]
enum BracketFault<'a> {
    /// It isn't closed.
    Open(Token<'a>),
    /// It closes none.
    Unopened(Token<'a>),
    /// The first one isn't closed before the second one, which closes another kind of bracket.
    Mismatched(Token<'a>, Token<'a>),
}

/// What is wrong with the brackets among some tokens: each one that closes none, and then each one that stays open. What
/// follows a bracket of the wrong kind isn't reported.
fn bracket_faults<'a>(
    alloc: Global,
    tokens: &'a [Token<'a>],
) -> Result<Vec<BracketFault<'a>>, AllocError> {
    let mut open = Vec::new(alloc);
    let mut faults = Vec::new(alloc);
    if push_closing(tokens, &mut open, &mut faults)? {
        push_open(&open, &mut faults)?;
    }
    Ok(faults)
}

/// Adds what is wrong with the brackets that are closed among some tokens, if none is open before them. Stops at the
/// first bracket that closes one of another kind, and returns false then. Brackets that stay open are left in the list
/// of the open ones.
fn push_closing<'a>(
    tokens: &'a [Token<'a>],
    open: &mut Vec<Token<'a>>,
    faults: &mut Vec<BracketFault<'a>>,
) -> Result<bool, AllocError> {
    for token in tokens {
        if token.kind.opens() {
            open.push(*token)?;
        } else if token.kind.closes() {
            match open.pop() {
                None => faults.push(BracketFault::Unopened(*token))?,
                Some(last) if closing_of(last.kind) != closing_of(token.kind) => {
                    faults.push(BracketFault::Mismatched(last, *token))?;
                    return Ok(false);
                }
                Some(_) => {}
            }
        }
    }
    Ok(true)
}

/// Adds that brackets stay open.
fn push_open<'a>(open: &[Token<'a>], faults: &mut Vec<BracketFault<'a>>) -> Result<(), AllocError> {
    for token in open {
        faults.push(BracketFault::Open(*token))?;
    }
    Ok(())
}

/// The bracket that closes one of such a kind.
fn closing_of(kind: TokenKind) -> &'static str {
    match kind {
        TokenKind::Symbol(Symbol::OpenParenthesis | Symbol::CloseParenthesis) => "`)`",
        TokenKind::Symbol(Symbol::OpenBracket | Symbol::CloseBracket) => "`]`",
        _ => "`}`",
    }
}

/// Whether the brackets of each section of a description without macros are closed as they should be.
pub fn is_balanced(alloc: Global, tokens: &[Token<'_>]) -> Result<bool, AllocError> {
    for section in ["players", "pieces", "variables", "board", "rules"] {
        if !is_section_balanced(alloc, tokens, section)? {
            return Ok(false);
        }
    }
    Ok(true)
}

/// The same of one section.
pub fn is_section_balanced(
    alloc: Global,
    tokens: &[Token<'_>],
    section: &str,
) -> Result<bool, AllocError> {
    are_balanced(alloc, after_head(tokens, section.as_bytes()))
}

/// Whether nothing is wrong with the brackets among some tokens.
fn are_balanced(alloc: Global, tokens: &[Token<'_>]) -> Result<bool, AllocError> {
    let faults = bracket_faults(alloc, tokens)?;
    Ok(faults.is_empty())
}

/// Whether nothing is wrong with the brackets of the section or the macro in whose body the token at an offset is.
pub fn is_balanced_around(
    alloc: Global,
    tokens: &[Token<'_>],
    at: usize,
) -> Result<bool, AllocError> {
    let definitions = definitions(alloc, tokens)?;
    for definition in &definitions {
        if holds_offset(definition.body, at) {
            return are_balanced(alloc, definition.body);
        }
    }
    Ok(false)
}

/// Adds the faults of the brackets in the bodies of macros.
pub fn push_unbalanced(
    alloc: Global,
    text: &[u8],
    tokens: &[Token<'_>],
    found: &mut Vec<Diagnostic>,
) -> Result<(), AllocError> {
    let definitions = definitions(alloc, tokens)?;
    for definition in &definitions {
        if !definition.is_section() {
            push_body(alloc, text, definition, found)?;
        }
    }
    Ok(())
}

/// Adds the faults of the brackets in a body.
fn push_body(
    alloc: Global,
    text: &[u8],
    definition: &Definition<'_>,
    found: &mut Vec<Diagnostic>,
) -> Result<(), AllocError> {
    let faults = bracket_faults(alloc, definition.body)?;
    for fault in &faults {
        push_fault(alloc, text, definition, *fault, found)?;
    }
    Ok(())
}

/// Adds a fault of the brackets in a body.
fn push_fault(
    alloc: Global,
    text: &[u8],
    definition: &Definition<'_>,
    fault: BracketFault<'_>,
    found: &mut Vec<Diagnostic>,
) -> Result<(), AllocError> {
    let at = match fault {
        BracketFault::Open(token)
        | BracketFault::Unopened(token)
        | BracketFault::Mismatched(_, token) => { token.at }
    };
    let mut made = Diagnostic::new(alloc, Severity::Fault, "Bracket", at, 1);
    let mut writer = MessageWriter::new(alloc, &mut made.message);
    write_fault(&mut writer, text, definition.name.text, fault);
    writer.end()?;
    relate_opening(alloc, text, fault, &mut made)?;
    found.push(made)?;
    Ok(())
}

fn write_fault(writer: &mut MessageWriter<'_>, text: &[u8], name: &[u8], fault: BracketFault<'_>) {
    match fault {
        BracketFault::Open(token) => {
            writer.named("the bracket ", token.text, " isn't closed");
            writer.named(" in the body of ", name, "");
        }
        BracketFault::Unopened(token) => {
            writer.named("", token.text, " closes no bracket");
            writer.named(" in the body of ", name, "");
        }
        BracketFault::Mismatched(open, close) => {
            writer.text("expected ");
            writer.text(closing_of(open.kind));
            writer.place(
                " for the bracket opened at ",
                line_and_column(text, open.at),
                "",
            );
            writer.named(" in the body of ", name, "");
            writer.named(", found ", close.text, "");
        }
    }
}

/// Adds to a fault the place of the bracket that isn't closed, if another one is closed before it.
fn relate_opening(
    alloc: Global,
    text: &[u8],
    fault: BracketFault<'_>,
    made: &mut Diagnostic,
) -> Result<(), AllocError> {
    match fault {
        BracketFault::Mismatched(open, _) => relate_bracket(alloc, made, text, open.at),
        _ => Ok(()),
    }
}

/// Adds to a fault that the bracket at an offset isn't closed.
pub fn relate_bracket(
    alloc: Global,
    fault: &mut Diagnostic,
    text: &[u8],
    at: usize,
) -> Result<(), AllocError> {
    let mut words = Vec::new(alloc);
    let mut writer = MessageWriter::new(alloc, &mut words);
    let place = line_and_column(text, at);
    writer.place("the bracket opened at ", place, " isn't closed");
    writer.end()?;
    fault.relate(at, 1, words)
}
