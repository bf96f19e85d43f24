//! A refused description, explained.

use crate::codes::code_of;
use crate::exact::find_place;
use crate::forgotten::push_forgotten;
use crate::joined::relate_joins;
use crate::meant::meant_name;
use crate::message::{Known, Message};
use crate::notes::relate_notes;
use crate::spot::Spot;
use crate::traced::{Flat, PartFault};
use rbg_console::Refusal;
use rbg_game::LoadError;
use rbg_lint::{
    Diagnostic, File, MessageWriter, Severity, cut, is_balanced, is_balanced_around,
    is_section_balanced, misspelt_section, push_diagnostics, push_unbalanced, unroll,
};
use rbg_macro::{MacroError, Token, Tokens};
use rbg_syntax::SyntaxError;
use std::alloc::{AllocError, Global};

/// A text that is refused: its bytes, its tokens where it can be cut into them, and why.
#[derive(Clone, Copy)]
struct Refused<'a> {
    text: &'a [u8],
    tokens: Option<&'a Tokens<'a>>,
    error: &'a LoadError,
}

/// What is reported to the author of a refused text: the file, the line and the column, what was expected and what stands
/// there, the line itself with carets below the place, and the printed line of the refusal. The tokens are those of the
/// text, where it can be cut into tokens.
pub fn explain(
    alloc: Global,
    file: &str,
    text: &[u8],
    tokens: Option<&Tokens<'_>>,
    error: LoadError,
) -> Result<Vec<u8>, AllocError> {
    let mut output = Vec::new(alloc);
    let file = File { name: file, text };
    push_diagnostics(
        alloc,
        &mut output,
        file,
        &faults(alloc, text, tokens, &error)?,
    )?;
    push_refusal(alloc, &mut output, error)?;
    Ok(output)
}

/// Adds the printed line of a refusal.
fn push_refusal(alloc: Global, output: &mut Vec<u8>, error: LoadError) -> Result<(), AllocError> {
    let mut writer = MessageWriter::new(alloc, output);
    writer.text("refused ");
    writer.shown(&Refusal(error));
    writer.text("\n");
    writer.end()
}

/// The faults of a text that is refused. The tokens are those of the text, where it can be cut into tokens.
pub(crate) fn faults(
    alloc: Global,
    text: &[u8],
    tokens: Option<&Tokens<'_>>,
    error: &LoadError,
) -> Result<Vec<Diagnostic>, AllocError> {
    let mut found = Vec::new(alloc);
    let refused = Refused {
        text,
        tokens,
        error,
    };
    push_faults(alloc, &refused, &mut found)?;
    Ok(found)
}

/// Adds the faults of a text that is refused: the heads without a `#`, from which other faults follow, or else all that is
/// known.
fn push_faults(
    alloc: Global,
    refused: &Refused<'_>,
    found: &mut Vec<Diagnostic>,
) -> Result<(), AllocError> {
    if may_follow(refused.error) {
        push_forgotten(alloc, refused.text, slice_of(refused.tokens), found)?;
    }
    if found.is_empty() {
        push_known_faults(alloc, refused, found)?;
    }
    Ok(())
}

/// Whether a refusal may follow from a head without a `#`.
fn may_follow(error: &LoadError) -> bool {
    matches!(
        error,
        LoadError::Syntax(_)
            | LoadError::Game(_)
            | LoadError::Macro(MacroError::ArgumentCount { .. } | MacroError::Twice { .. })
    )
}

/// Adds the faults of a text that is refused, where each head has its `#`.
fn push_known_faults(
    alloc: Global,
    refused: &Refused<'_>,
    found: &mut Vec<Diagnostic>,
) -> Result<(), AllocError> {
    match (refused.tokens, refused.error) {
        (Some(tokens), LoadError::Syntax(_) | LoadError::Game(_)) => {
            push_traced_faults(alloc, refused, tokens, found)?;
        }
        (Some(tokens), LoadError::Macro(error)) => {
            push_macro_faults(alloc, refused, tokens, error, found)?;
        }
        _ => {}
    }
    if found.is_empty() {
        push_fault(alloc, refused, found)?;
    }
    Ok(())
}

/// Adds the fault for which a text is refused, where no call is known.
fn push_fault(
    alloc: Global,
    refused: &Refused<'_>,
    found: &mut Vec<Diagnostic>,
) -> Result<(), AllocError> {
    match find_place(alloc, refused.error, refused.text, refused.tokens)? {
        Some(at) => push_fault_at(alloc, refused, at, Known::Nothing, found),
        None => push_whole_fault(alloc, refused, found),
    }
}

/// Adds the faults of a text whose macros can't be expanded, if more is known than where it is refused.
fn push_macro_faults(
    alloc: Global,
    refused: &Refused<'_>,
    tokens: &Tokens<'_>,
    error: &MacroError,
    found: &mut Vec<Diagnostic>,
) -> Result<(), AllocError> {
    if let MacroError::ArgumentCount { at } = error {
        push_unbalanced(alloc, refused.text, tokens.as_slice(), found)?;
        // what is wrong with brackets elsewhere doesn't reach the call
        if !found.is_empty() && !is_balanced_around(alloc, tokens.as_slice(), *at)? {
            return Ok(());
        }
    }
    match error {
        MacroError::ArgumentCount { at } | MacroError::Depth { at } => {
            push_call_fault(alloc, refused, tokens, *at, found)
        }
        MacroError::TooManyTokens => push_too_long(alloc, refused, tokens, found),
        _ => Ok(()),
    }
}

/// Adds the fault of a call at an offset.
fn push_call_fault(
    alloc: Global,
    refused: &Refused<'_>,
    tokens: &Tokens<'_>,
    at: usize,
    found: &mut Vec<Diagnostic>,
) -> Result<(), AllocError> {
    let unrolled = unroll(alloc, refused.text, tokens.as_slice())?;
    let known = match unrolled.call_at(at) {
        Some(origin) => Known::Call(&unrolled, origin),
        None => Known::Nothing,
    };
    push_fault_at(alloc, refused, at, known, found)
}

/// Adds the faults of a text where its macros are written out.
fn push_traced_faults(
    alloc: Global,
    refused: &Refused<'_>,
    tokens: &Tokens<'_>,
    found: &mut Vec<Diagnostic>,
) -> Result<(), AllocError> {
    let unrolled = unroll(alloc, refused.text, tokens.as_slice())?;
    match cut(alloc, &unrolled.text)? {
        Some(cut) => {
            let flat = Flat {
                unrolled: &unrolled,
                tokens: cut.as_slice(),
            };
            push_flat_faults(alloc, refused, flat, found)
        }
        None => Ok(()),
    }
}

/// Adds the faults of a text whose macros are written out: those of brackets in the bodies of macros and of the sections
/// that they don't reach, or else those of its sections.
fn push_flat_faults(
    alloc: Global,
    refused: &Refused<'_>,
    flat: Flat<'_>,
    found: &mut Vec<Diagnostic>,
) -> Result<(), AllocError> {
    let is_syntax = matches!(
        refused.error,
        LoadError::Syntax(SyntaxError::Expected { .. })
    );
    if is_syntax && !is_balanced(alloc, flat.tokens)? {
        push_unbalanced(alloc, refused.text, slice_of(refused.tokens), found)?;
    }
    if !found.is_empty() {
        return push_balanced_parts(alloc, refused, flat, found);
    }
    match refused.error {
        LoadError::Syntax(SyntaxError::Expected { .. } | SyntaxError::TooDeep { .. }) => {
            push_parts(alloc, refused, flat, &SYNTAX_PARTS, found)
        }
        LoadError::Game(_) => push_parts(alloc, refused, flat, &GAME_PARTS, found),
        _ => Ok(()),
    }
}

/// The sections that are looked at by themselves where a text can't be parsed.
const SYNTAX_PARTS: [&[&str]; 5] = [
    &["players"],
    &["pieces"],
    &["variables"],
    &["board"],
    &["rules"],
];

/// The sections that are looked at together where a text can be parsed.
const GAME_PARTS: [&[&str]; 4] = [
    &["players", "pieces", "variables", "board", "rules"],
    &["players", "variables"],
    &["pieces"],
    &["pieces", "board"],
];

/// Adds the fault of each of these parts of a description.
fn push_parts(
    alloc: Global,
    refused: &Refused<'_>,
    flat: Flat<'_>,
    parts: &[&[&str]],
    found: &mut Vec<Diagnostic>,
) -> Result<(), AllocError> {
    for sections in parts {
        if let Some(fault) = flat.fault_of(alloc, sections)?
            && is_of_layer(refused.error, &fault.error)
        {
            push_part_fault(alloc, refused, flat, fault, found)?;
        }
    }
    Ok(())
}

/// Adds the fault of each section in which nothing is wrong with brackets, beside those of the brackets in macros.
fn push_balanced_parts(
    alloc: Global,
    refused: &Refused<'_>,
    flat: Flat<'_>,
    found: &mut Vec<Diagnostic>,
) -> Result<(), AllocError> {
    for sections in SYNTAX_PARTS {
        if are_sections_balanced(alloc, flat, sections)? {
            push_parts(alloc, refused, flat, &[sections], found)?;
        }
    }
    Ok(())
}

fn are_sections_balanced(
    alloc: Global,
    flat: Flat<'_>,
    sections: &[&str],
) -> Result<bool, AllocError> {
    for section in sections {
        if !is_section_balanced(alloc, flat.tokens, section)? {
            return Ok(false);
        }
    }
    Ok(true)
}

/// Whether two refusals are those of one layer.
fn is_of_layer(left: &LoadError, right: &LoadError) -> bool {
    matches!(
        (left, right),
        (LoadError::Syntax(_), LoadError::Syntax(_)) | (LoadError::Game(_), LoadError::Game(_))
    )
}

/// Adds the fault of a part of a description, if none is reported at its place.
fn push_part_fault(
    alloc: Global,
    refused: &Refused<'_>,
    flat: Flat<'_>,
    fault: PartFault,
    found: &mut Vec<Diagnostic>,
) -> Result<(), AllocError> {
    let Some(traced) = flat.trace(fault.at) else {
        return Ok(());
    };
    let trace = traced.shown(&fault.error);
    if has_fault_at(found, trace.origin.at) {
        return Ok(());
    }
    let part = Refused {
        text: refused.text,
        tokens: refused.tokens,
        error: &fault.error,
    };
    push_fault_at(alloc, &part, trace.origin.at, Known::Token(trace), found)
}

/// Whether a fault is reported at an offset.
fn has_fault_at(found: &[Diagnostic], at: usize) -> bool {
    for fault in found {
        if fault.start == at {
            return true;
        }
    }
    false
}

/// Adds the fault of a text that is refused at no offset: at the head of a macro whose name is like that of the section
/// that is missing, or for the whole text.
fn push_whole_fault(
    alloc: Global,
    refused: &Refused<'_>,
    found: &mut Vec<Diagnostic>,
) -> Result<(), AllocError> {
    let mut message = Message {
        error: refused.error,
        text: refused.text,
        spot: None,
        known: Known::Nothing,
        has_ended: false,
        meant: None,
    };
    let mut fault = Diagnostic::new(alloc, Severity::Fault, code_of(refused.error), 0, 0);
    if let LoadError::Syntax(SyntaxError::MissingSection { which }) = refused.error
        && let Some(head) = misspelt_section(alloc, slice_of(refused.tokens), which.name())?
    {
        message.meant = Some(head.text.to_vec(alloc)?);
        fault.start = head.at;
        fault.end = head.at.saturating_add(head.text.len());
    }
    message.write(alloc, &mut fault.message)?;
    found.push(fault)?;
    Ok(())
}

/// Adds that the macros of a text expand to too many tokens, at the call where they do.
fn push_too_long(
    alloc: Global,
    refused: &Refused<'_>,
    tokens: &Tokens<'_>,
    found: &mut Vec<Diagnostic>,
) -> Result<(), AllocError> {
    let unrolled = unroll(alloc, refused.text, tokens.as_slice())?;
    match unrolled.too_long {
        Some(origin) => {
            let at = unrolled.root(origin).at;
            push_fault_at(alloc, refused, at, Known::Nothing, found)
        }
        None => Ok(()),
    }
}

/// Adds the fault of a text that is refused at an offset.
fn push_fault_at(
    alloc: Global,
    refused: &Refused<'_>,
    at: usize,
    known: Known<'_>,
    found: &mut Vec<Diagnostic>,
) -> Result<(), AllocError> {
    let tokens = slice_of(refused.tokens);
    let mut message = Message {
        error: refused.error,
        text: refused.text,
        spot: Spot::find(tokens, at),
        known,
        has_ended: false,
        meant: None,
    };
    message.go_to_end(tokens);
    message.meant = meant_name(alloc, &message)?;
    let start = match message.spot {
        Some(spot) => spot.token.at,
        None => at,
    };
    let code = code_of(refused.error);
    let mut fault = Diagnostic::new(alloc, Severity::Fault, code, start, message.width());
    write_fault(alloc, &mut fault, tokens, &message)?;
    found.push(fault)?;
    Ok(())
}

/// Writes the message of a fault, where its token is joined, and the other places that it is about.
fn write_fault(
    alloc: Global,
    fault: &mut Diagnostic,
    tokens: &[Token<'_>],
    message: &Message<'_, '_>,
) -> Result<(), AllocError> {
    message.write(alloc, &mut fault.message)?;
    if let Some(joined) = message.joined() {
        relate_joins(alloc, fault, message.text, tokens, joined)?;
    }
    relate_notes(alloc, fault, tokens, message)
}

fn slice_of<'a>(tokens: Option<&'a Tokens<'a>>) -> &'a [Token<'a>] {
    match tokens {
        Some(tokens) => tokens.as_slice(),
        None => &[],
    }
}
