//! Answers as JSON.

use crate::completion::{Completion, CompletionKind};
use crate::edits::Change;
use crate::hover::Hover;
use crate::lines::Lines;
use crate::new_names::Renaming;
use crate::notices::separate;
use crate::outline::{DocumentSymbol, SymbolKind};
use crate::reply::Reply;
use crate::words::Span;
use serde_json::Value;

/// The error code of a request that is right but failed.
const REQUEST_FAILED: i64 = -32803;

/// A request: the method that it calls, its id, and the whole message.
#[derive(Clone, Copy)]
pub(crate) struct Request<'a> {
    pub method: &'a str,
    pub id: &'a Value,
    pub message: &'a Value,
}

/// A request about a document.
#[derive(Clone, Copy)]
pub(crate) struct DocumentRequest<'a> {
    pub request: Request<'a>,
    pub uri: &'a str,
    pub text: &'a [u8],
    pub lines: &'a Lines,
}

/// Writes that there is no answer.
pub(crate) fn write_null(reply: &mut Reply, id: &Value) {
    reply.begin_result(Some(id));
    reply.text("null}");
}

pub(crate) fn write_hover(reply: &mut Reply, asked: DocumentRequest<'_>, hover: &Option<Hover>) {
    match hover {
        Some(hover) => {
            reply.begin_result(Some(asked.request.id));
            reply.text("{\"contents\":{\"kind\":\"markdown\",\"value\":");
            reply.string(&hover.text);
            reply.text("},\"range\":");
            reply.range(asked.text, asked.lines, hover.span);
            reply.text("}}");
        }
        None => write_null(reply, asked.request.id),
    }
}

/// Writes places in the document.
pub(crate) fn write_places(reply: &mut Reply, asked: DocumentRequest<'_>, spans: &[Span]) {
    reply.begin_result(Some(asked.request.id));
    reply.text("[");
    for (index, span) in spans.iter().enumerate() {
        separate(reply, index);
        reply.text("{\"uri\":");
        reply.string(asked.uri.as_bytes());
        reply.text(",\"range\":");
        reply.range(asked.text, asked.lines, *span);
        reply.text("}");
    }
    reply.text("]}");
}

/// Writes the range of a name that can be another one.
pub(crate) fn write_span(reply: &mut Reply, asked: DocumentRequest<'_>, span: Option<Span>) {
    match span {
        Some(span) => {
            reply.begin_result(Some(asked.request.id));
            reply.range(asked.text, asked.lines, span);
            reply.text("}");
        }
        None => write_null(reply, asked.request.id),
    }
}

/// Writes the edits that rename something, or why it can't be renamed.
pub(crate) fn write_renaming(
    reply: &mut Reply,
    asked: DocumentRequest<'_>,
    renaming: &Renaming,
    name: &[u8],
) {
    match renaming {
        Renaming::Places(places) => {
            reply.begin_result(Some(asked.request.id));
            reply.text("{\"changes\":{");
            reply.string(asked.uri.as_bytes());
            reply.text(":[");
            for (index, place) in places.iter().enumerate() {
                separate(reply, index);
                write_edit(reply, asked, *place, name);
            }
            reply.text("]}}}");
        }
        Renaming::Refused(reason) => reply.error(Some(asked.request.id), REQUEST_FAILED, reason),
    }
}

/// Writes an edit that puts bytes in place of a part of the text.
fn write_edit(reply: &mut Reply, asked: DocumentRequest<'_>, span: Span, bytes: &[u8]) {
    reply.text("{\"range\":");
    reply.range(asked.text, asked.lines, span);
    reply.text(",\"newText\":");
    reply.string(bytes);
    reply.text("}");
}

/// Writes the one edit that makes the new text of the document's, or that there is none.
pub(crate) fn write_change(
    reply: &mut Reply,
    asked: DocumentRequest<'_>,
    new: &[u8],
    change: Option<Change>,
) {
    reply.begin_result(Some(asked.request.id));
    reply.text("[");
    if let Some(change) = change {
        let bytes = new.get(change.new.start..change.new.end).unwrap_or(&[]);
        write_edit(reply, asked, change.old, bytes);
    }
    reply.text("]}");
}

pub(crate) fn write_completions(
    reply: &mut Reply,
    asked: DocumentRequest<'_>,
    completions: &[Completion<'_>],
) {
    reply.begin_result(Some(asked.request.id));
    reply.text("[");
    for (index, completion) in completions.iter().enumerate() {
        separate(reply, index);
        reply.text("{\"label\":");
        reply.string(completion.name);
        reply.text(completion_words(completion.kind));
    }
    reply.text("]}");
}

/// The kind of something that may come next, as the protocol numbers it, and its name.
fn completion_words(kind: CompletionKind) -> &'static str {
    match kind {
        CompletionKind::Section => ",\"kind\":9,\"detail\":\"section\"}",
        CompletionKind::Generator => ",\"kind\":14,\"detail\":\"board\"}",
        CompletionKind::Macro => ",\"kind\":3,\"detail\":\"macro\"}",
        CompletionKind::Parameter => ",\"kind\":25,\"detail\":\"parameter\"}",
        CompletionKind::Direction => ",\"kind\":5,\"detail\":\"direction\"}",
        CompletionKind::Piece => ",\"kind\":20,\"detail\":\"piece\"}",
        CompletionKind::Player => ",\"kind\":7,\"detail\":\"player\"}",
        CompletionKind::Variable => ",\"kind\":6,\"detail\":\"variable\"}",
        CompletionKind::Vertex => ",\"kind\":21,\"detail\":\"vertex\"}",
    }
}

/// Writes an outline. The things that a section declares are inside its entry.
pub(crate) fn write_outline(
    reply: &mut Reply,
    asked: DocumentRequest<'_>,
    symbols: &[DocumentSymbol<'_>],
) {
    reply.begin_result(Some(asked.request.id));
    reply.text("[");
    let mut is_open = false;
    for (index, symbol) in symbols.iter().enumerate() {
        if symbol.is_inner {
            write_inner(reply, asked, symbols, index);
        } else {
            reply.text(if is_open { "]}," } else { "" });
            write_symbol(reply, asked, symbol);
            is_open = true;
        }
    }
    reply.text(if is_open { "]}]}" } else { "]}" });
}

/// Writes an entry inside of the one before.
fn write_inner(
    reply: &mut Reply,
    asked: DocumentRequest<'_>,
    symbols: &[DocumentSymbol<'_>],
    index: usize,
) {
    let Some(symbol) = symbols.get(index) else {
        return;
    };
    let is_first = match symbols.get(index.saturating_sub(1)) {
        Some(before) => !before.is_inner,
        None => true,
    };
    reply.text(if is_first { "" } else { "," });
    write_symbol(reply, asked, symbol);
    reply.text("]}");
}

/// Writes an entry up to the list of those inside of it.
fn write_symbol(reply: &mut Reply, asked: DocumentRequest<'_>, symbol: &DocumentSymbol<'_>) {
    reply.text("{\"name\":");
    reply.string(symbol.name);
    reply.text(symbol_words(symbol.kind));
    reply.range(asked.text, asked.lines, symbol.whole);
    reply.text(",\"selectionRange\":");
    reply.range(asked.text, asked.lines, symbol.at);
    reply.text(",\"children\":[");
}

/// The kind of an entry, as the protocol numbers it, and the fields before its range.
fn symbol_words(kind: SymbolKind) -> &'static str {
    match kind {
        SymbolKind::Section => ",\"kind\":3,\"detail\":\"section\",\"range\":",
        SymbolKind::Macro => ",\"kind\":12,\"detail\":\"macro\",\"range\":",
        SymbolKind::Direction => ",\"kind\":8,\"detail\":\"direction\",\"range\":",
        SymbolKind::Piece => ",\"kind\":22,\"detail\":\"piece\",\"range\":",
        SymbolKind::Player => ",\"kind\":5,\"detail\":\"player\",\"range\":",
        SymbolKind::Variable => ",\"kind\":13,\"detail\":\"variable\",\"range\":",
        SymbolKind::Vertex => ",\"kind\":14,\"detail\":\"vertex\",\"range\":",
    }
}
