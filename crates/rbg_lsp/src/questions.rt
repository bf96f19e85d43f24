//! Questions of an editor about a document.

use crate::analysis::Analysis;
use crate::answers::{
    DocumentRequest, Request, write_change, write_completions, write_hover, write_null,
    write_outline, write_places, write_renaming, write_span,
};
use crate::completion::completions;
use crate::documents::Document;
use crate::edits::change_between;
use crate::hover::hover_at;
use crate::layout::formatted;
use crate::lines::Lines;
use crate::message_fields::{position_of, text_at};
use crate::new_names::{prepare_rename, rename};
use crate::outline::symbols;
use crate::references::{definition_at, references_at};
use crate::reply::Reply;
use serde_json::Value;
use std::alloc::{AllocError, Global};

/// The code of a request whose parameters aren't right.
const INVALID_PARAMS: i64 = -32602;

/// The questions about a document.
#[derive(Clone, Copy, PartialEq, Eq)]
pub(crate) enum Question {
    Hover,
    Definition,
    References,
    PrepareRename,
    Rename,
    Completion,
    Outline,
    Formatting,
}

/// A place of a document that a request is about.
#[derive(Clone, Copy)]
struct AskedPlace<'a> {
    asked: DocumentRequest<'a>,
    analysis: &'a Analysis<'a>,
    at: usize,
}

/// The question of a method.
pub(crate) fn question_of(method: &str) -> Option<Question> {
    match method {
        "textDocument/hover" => Some(Question::Hover),
        "textDocument/definition" => Some(Question::Definition),
        "textDocument/references" => Some(Question::References),
        "textDocument/prepareRename" => Some(Question::PrepareRename),
        "textDocument/rename" => Some(Question::Rename),
        "textDocument/completion" => Some(Question::Completion),
        "textDocument/documentSymbol" => Some(Question::Outline),
        "textDocument/formatting" => Some(Question::Formatting),
        _ => None,
    }
}

/// Answers a question about a document.
pub(crate) fn answer(
    alloc: Global,
    question: Question,
    document: &Document,
    request: Request<'_>,
    reply: &mut Reply,
) -> Result<(), AllocError> {
    let lines = Lines::of(alloc, document.text())?;
    let asked = DocumentRequest {
        request,
        uri: document.uri(),
        text: document.text(),
        lines: &lines,
    };
    match question {
        Question::Formatting => answer_formatting(alloc, asked, reply),
        Question::Outline => answer_outline(alloc, asked, reply),
        _ => match position_of(request.message) {
            Some(position) => {
                let at = lines.offset_of(document.text(), position);
                answer_at(alloc, question, asked, at, reply)
            }
            None => {
                reply.error(Some(request.id), INVALID_PARAMS, "there is no position");
                Ok(())
            }
        },
    }
}

/// Answers a question about a place.
fn answer_at(
    alloc: Global,
    question: Question,
    asked: DocumentRequest<'_>,
    at: usize,
    reply: &mut Reply,
) -> Result<(), AllocError> {
    let analysis = Analysis::of(alloc, asked.text)?;
    let place = AskedPlace {
        asked,
        analysis: &analysis,
        at,
    };
    match question {
        Question::Hover => answer_hover(alloc, place, reply),
        Question::Definition => answer_definition(alloc, place, reply),
        Question::References => answer_references(alloc, place, reply),
        Question::PrepareRename => {
            write_span(reply, asked, prepare_rename(&analysis, at));
            Ok(())
        }
        Question::Rename => answer_rename(alloc, place, reply),
        Question::Completion => answer_completion(alloc, place, reply),
        Question::Outline | Question::Formatting => Ok(()),
    }
}

fn answer_hover(alloc: Global, place: AskedPlace<'_>, reply: &mut Reply) -> Result<(), AllocError> {
    let hover = hover_at(alloc, place.analysis, place.at)?;
    write_hover(reply, place.asked, &hover);
    Ok(())
}

fn answer_definition(
    alloc: Global,
    place: AskedPlace<'_>,
    reply: &mut Reply,
) -> Result<(), AllocError> {
    let spans = definition_at(alloc, place.analysis, place.at)?;
    write_places(reply, place.asked, &spans);
    Ok(())
}

fn answer_references(
    alloc: Global,
    place: AskedPlace<'_>,
    reply: &mut Reply,
) -> Result<(), AllocError> {
    let with_declarations = is_true_at(
        place.asked.request.message,
        "/params/context/includeDeclaration",
    );
    let spans = references_at(alloc, place.analysis, place.at, with_declarations)?;
    write_places(reply, place.asked, &spans);
    Ok(())
}

fn is_true_at(message: &Value, path: &str) -> bool {
    match message.pointer(path) {
        Some(value) => value.as_bool() == Some(true),
        None => false,
    }
}

fn answer_rename(
    alloc: Global,
    place: AskedPlace<'_>,
    reply: &mut Reply,
) -> Result<(), AllocError> {
    let Some(name) = text_at(place.asked.request.message, "/params/newName") else {
        reply.error(
            Some(place.asked.request.id),
            INVALID_PARAMS,
            "there is no new name",
        );
        return Ok(());
    };
    let name = name.as_bytes();
    let renaming = rename(alloc, place.analysis, place.at, name)?;
    write_renaming(reply, place.asked, &renaming, name);
    Ok(())
}

fn answer_completion(
    alloc: Global,
    place: AskedPlace<'_>,
    reply: &mut Reply,
) -> Result<(), AllocError> {
    let found = completions(alloc, place.analysis, place.at)?;
    write_completions(reply, place.asked, &found);
    Ok(())
}

fn answer_outline(
    alloc: Global,
    asked: DocumentRequest<'_>,
    reply: &mut Reply,
) -> Result<(), AllocError> {
    let analysis = Analysis::of(alloc, asked.text)?;
    let found = symbols(alloc, &analysis)?;
    write_outline(reply, asked, &found);
    Ok(())
}

fn answer_formatting(
    alloc: Global,
    asked: DocumentRequest<'_>,
    reply: &mut Reply,
) -> Result<(), AllocError> {
    match formatted(alloc, asked.text)? {
        Some(new) => write_change(reply, asked, &new, change_between(asked.text, &new)),
        None => write_null(reply, asked.request.id),
    }
    Ok(())
}
