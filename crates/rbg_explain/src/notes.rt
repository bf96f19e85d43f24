//! Other places that a fault is about.

use crate::calls::relate_calls;
use crate::message::{Known, Message};
use crate::spot::{Spot, head_name};
use rbg_game::{GameError, LoadError};
use rbg_lint::{
    Diagnostic, MessageWriter, NameKind, count_names, kind_of, line_and_column, nth_name,
    relate_bracket,
};
use rbg_macro::{MacroError, Symbol, Token};
use rbg_syntax::{Expectation, SyntaxError};
use std::alloc::{AllocError, Global};

/// Adds to a fault which bracket isn't closed, where a name was given first, what a parameter hides, the macro in whose body the place is and where
/// it is called, and where the macro is defined that the refusal is about.
pub(crate) fn relate_notes(
    alloc: Global,
    fault: &mut Diagnostic,
    tokens: &[Token<'_>],
    message: &Message<'_, '_>,
) -> Result<(), AllocError> {
    if let Some(bracket) = unclosed_bracket(message) {
        relate_bracket(alloc, fault, message.text, bracket)?;
    } else if let Some(bracket) = list_start(message) {
        relate_place(alloc, fault, message.text, bracket, "the list begins at ")?;
    }
    if let Some(first) = first_of_name(message) {
        relate_place(
            alloc,
            fault,
            message.text,
            first,
            "the name was given first at ",
        )?;
    }
    if let Some(parameter) = message.parameter() {
        relate_hidden(alloc, fault, parameter, message)?;
    }
    if let Some(head) = enclosing_macro(message) {
        relate_body(alloc, fault, tokens, head, message)?;
    }
    if let Some(head) = defined_macro(message, tokens) {
        relate_definition(alloc, fault, head, message)?;
    }
    Ok(())
}

/// The offset of the bracket that isn't closed where a list ends too early, or the arguments of a call.
fn unclosed_bracket(message: &Message<'_, '_>) -> Option<usize> {
    match message.error {
        LoadError::Syntax(SyntaxError::Expected { .. }) => match message.trace() {
            Some(trace) => {
                let bracket = trace.open_bracket()?;
                if bracket.spot.is_unclosed() {
                    Some(bracket.origin.at)
                } else {
                    None
                }
            }
            None => Some(message.spot?.open_bracket()?.at),
        },
        LoadError::Macro(MacroError::ArgumentCount { .. }) => open_call(message.spot?),
        _ => None,
    }
}

/// The offset of the bracket that isn't closed after a call.
fn open_call(spot: Spot<'_>) -> Option<usize> {
    if spot.is_open_call() {
        Some(spot.bracket_after()?.at)
    } else {
        None
    }
}

/// The offset of the bracket that begins the list in which an argument doesn't fit.
fn list_start(message: &Message<'_, '_>) -> Option<usize> {
    let LoadError::Syntax(SyntaxError::Expected { what, .. }) = message.error else {
        return None;
    };
    if *what != Expectation::Closing {
        return None;
    }
    let _argument = message.parameter()?;
    Some(message.trace()?.open_bracket()?.origin.at)
}

/// The offset at which the name that stands here again was given first.
fn first_of_name(message: &Message<'_, '_>) -> Option<usize> {
    let trace = message.trace()?;
    if !matches!(message.error, LoadError::Game(GameError::SameName { .. })) {
        return None;
    }
    let found = trace.spot.first_of_name()?;
    Some(trace.flat.trace(found.at)?.origin.at)
}

/// Adds to a fault another place, with these words before its line and its column.
fn relate_place(
    alloc: Global,
    fault: &mut Diagnostic,
    text: &[u8],
    at: usize,
    before: &str,
) -> Result<(), AllocError> {
    let mut words = Vec::new(alloc);
    let mut writer = MessageWriter::new(alloc, &mut words);
    writer.place(before, line_and_column(text, at), "");
    writer.end()?;
    fault.relate(at, 1, words)
}

/// Adds to a fault in place of a parameter what the parameter hides.
fn relate_hidden(
    alloc: Global,
    fault: &mut Diagnostic,
    parameter: Spot<'_>,
    message: &Message<'_, '_>,
) -> Result<(), AllocError> {
    let name = parameter.token.text;
    let Some(kind) = hidden_kind(message, name) else {
        return Ok(());
    };
    let mut words = Vec::new(alloc);
    let mut writer = MessageWriter::new(alloc, &mut words);
    writer.named("the parameter ", name, " hides the ");
    writer.text(kind.words());
    writer.text(" of its name");
    writer.end()?;
    fault.relate(parameter.token.at, name.len(), words)
}

/// Of which kind a name is outside of the macro whose parameter has it.
fn hidden_kind(message: &Message<'_, '_>, name: &[u8]) -> Option<NameKind> {
    kind_of(message.trace()?.flat.tokens, name)
}

/// Adds to a fault on which line the macro is defined that has this name in its head, and whether it calls itself.
fn relate_definition(
    alloc: Global,
    fault: &mut Diagnostic,
    head: Token<'_>,
    message: &Message<'_, '_>,
) -> Result<(), AllocError> {
    let mut words = Vec::new(alloc);
    let mut writer = MessageWriter::new(alloc, &mut words);
    let (line, _) = line_and_column(message.text, head.at);
    writer.named("the macro ", head.text, "");
    writer.number(" is defined on line ", line, "");
    if let LoadError::Macro(MacroError::ArgumentCount { .. }) = message.error
        && let Some(spot) = message.spot
    {
        write_parameters(&mut writer, spot.parameters_of(head.text));
    }
    if repeats(message) {
        writer.text(", and calls itself, or by way of other macros");
    }
    writer.end()?;
    fault.relate(head.at, head.text.len(), words)
}

/// The maximum number of parameters that are named.
const MOST_PARAMETERS: usize = 12;

/// Writes the names of a macro's parameters, among the tokens of its head.
fn write_parameters(writer: &mut MessageWriter<'_>, head: &[Token<'_>]) {
    let before = if count_names(head) == 1 {
        ", with the parameter "
    } else {
        ", with the parameters "
    };
    for index in 0..MOST_PARAMETERS {
        if let Some(parameter) = nth_name(head, index) {
            writer.named(if index == 0 { before } else { ", " }, parameter.text, "");
        }
    }
    if nth_name(head, MOST_PARAMETERS).is_some() {
        writer.text(", ..");
    }
}

/// Whether a call is too deep since it leads to itself.
fn repeats(message: &Message<'_, '_>) -> bool {
    match (message.error, message.known) {
        (LoadError::Macro(MacroError::Depth { at }), Known::Call(unrolled, _)) => {
            unrolled.repeats(*at)
        }
        _ => false,
    }
}

/// Adds to a fault in the body of which macro it is, and then at which line and column the macro is called from whose body
/// the fault comes, or else on which lines it is called.
fn relate_body(
    alloc: Global,
    fault: &mut Diagnostic,
    tokens: &[Token<'_>],
    head: Token<'_>,
    message: &Message<'_, '_>,
) -> Result<(), AllocError> {
    let mut words = Vec::new(alloc);
    let mut writer = MessageWriter::new(alloc, &mut words);
    writer.named("in the body of the macro ", head.text, "");
    writer.end()?;
    fault.relate(head.at, head.text.len(), words)?;
    match message.call_of(head.text) {
        Some(call) => relate_call(alloc, fault, head, call, message),
        None => relate_calls(alloc, fault, message.text, tokens, head.text),
    }
}

/// Adds to a fault from which call it comes.
fn relate_call(
    alloc: Global,
    fault: &mut Diagnostic,
    head: Token<'_>,
    call: usize,
    message: &Message<'_, '_>,
) -> Result<(), AllocError> {
    let mut words = Vec::new(alloc);
    let mut writer = MessageWriter::new(alloc, &mut words);
    writer.place("called at ", line_and_column(message.text, call), "");
    if is_same_name(message.error) {
        writer.named(": the macro replaces the name ", head.text, "");
    }
    writer.end()?;
    fault.relate(call, head.text.len(), words)
}

fn is_same_name(error: &LoadError) -> bool {
    matches!(error, LoadError::Game(GameError::SameName { .. }))
}

/// The name of the macro in whose body the place is. A refused head is in no body, and nor is the end of a section.
fn enclosing_macro<'a>(message: &Message<'a, '_>) -> Option<Token<'a>> {
    match message.error {
        LoadError::Text(_)
        | LoadError::Macro(MacroError::BadDefinition { .. } | MacroError::Twice { .. }) => None,
        _ => {
            let spot = message.spot?;
            if spot.token.is(Symbol::Hash) {
                return None;
            }
            spot.macro_name()
        }
    }
}

/// The name in the head of the macro that the refusal is about.
fn defined_macro<'a>(message: &Message<'_, '_>, tokens: &'a [Token<'a>]) -> Option<Token<'a>> {
    match message.error {
        LoadError::Macro(
            MacroError::Twice { .. } | MacroError::ArgumentCount { .. } | MacroError::Depth { .. },
        ) => head_name(tokens, message.spot?.token.text, 0),
        _ => None,
    }
}
