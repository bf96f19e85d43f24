//! Parameters that their macros never use, or that hide a name.

use crate::among::{has_text, index_of};
use crate::definition::{Definition, definitions};
use crate::diagnostic::Diagnostic;
use crate::look::{Look, new_warning};
use crate::message_writer::MessageWriter;
use crate::names::kind_of;
use rbg_macro::{Symbol, Token};
use std::alloc::{AllocError, Global};

/// Adds the parameters that their macros never use, and those that hide a name.
pub(crate) fn push_parameters(
    alloc: Global,
    look: Look<'_>,
    found: &mut Vec<Diagnostic>,
) -> Result<(), AllocError> {
    let definitions = definitions(alloc, look.tokens)?;
    let joins = index_of(look.tokens, Symbol::Tilde).is_some();
    for definition in &definitions {
        push_parameters_of(alloc, look, joins, definition, found)?;
    }
    Ok(())
}

/// Adds those of one macro. If a text joins tokens, a call may need a parameter for the sake of other macros, so none
/// is reported as unused.
fn push_parameters_of(
    alloc: Global,
    look: Look<'_>,
    joins: bool,
    definition: &Definition<'_>,
    found: &mut Vec<Diagnostic>,
) -> Result<(), AllocError> {
    for parameter in definition.head {
        if parameter.kind.is_name() {
            if let Some(kind) = kind_of(look.flat, parameter.text) {
                push_hiding(alloc, definition, *parameter, kind.words(), found)?;
            }
            if !joins && !has_text(definition.body, parameter.text) {
                push_unused(alloc, definition, *parameter, found)?;
            }
        }
    }
    Ok(())
}

fn push_unused(
    alloc: Global,
    definition: &Definition<'_>,
    parameter: Token<'_>,
    found: &mut Vec<Diagnostic>,
) -> Result<(), AllocError> {
    let Some(mut warning) = new_warning(alloc, found, "UnusedParameter", parameter) else {
        return Ok(());
    };
    let mut writer = MessageWriter::new(alloc, &mut warning.message);
    writer.named("the macro ", definition.name.text, "");
    writer.named(" never uses its parameter ", parameter.text, "");
    writer.end()?;
    found.push(warning)?;
    Ok(())
}

fn push_hiding(
    alloc: Global,
    definition: &Definition<'_>,
    parameter: Token<'_>,
    kind: &str,
    found: &mut Vec<Diagnostic>,
) -> Result<(), AllocError> {
    let Some(mut warning) = new_warning(alloc, found, "HidingParameter", parameter) else {
        return Ok(());
    };
    let mut writer = MessageWriter::new(alloc, &mut warning.message);
    writer.named("the parameter ", parameter.text, "");
    writer.named(" of ", definition.name.text, " hides the ");
    writer.text(kind);
    writer.text(" of its name");
    writer.end()?;
    found.push(warning)?;
    Ok(())
}
