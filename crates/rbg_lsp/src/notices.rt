//! Faults and warnings as they are sent to an editor.

use crate::documents::Document;
use crate::lines::Lines;
use crate::reply::Reply;
use crate::words::Span;
use rbg_lint::{Diagnostic, Related, Severity};
use std::alloc::{AllocError, Global};

/// The document that a message is about.
#[derive(Clone, Copy)]
struct About<'a> {
    uri: &'a str,
    text: &'a [u8],
    lines: &'a Lines,
}

/// Writes the message with the faults and warnings of a document.
pub(crate) fn write_diagnostics(
    alloc: Global,
    document: &Document,
    diagnostics: &[Diagnostic],
    reply: &mut Reply,
) -> Result<(), AllocError> {
    let lines = Lines::of(alloc, document.text())?;
    let about = About {
        uri: document.uri(),
        text: document.text(),
        lines: &lines,
    };
    begin_notice(reply, document.uri());
    if let Some(version) = document.version() {
        reply.text(",\"version\":");
        reply.integer(version);
    }
    reply.text(",\"diagnostics\":[");
    write_all(reply, about, diagnostics);
    reply.text("]}}");
    Ok(())
}

/// Writes the message that a document has no faults and warnings any more.
pub(crate) fn write_none(reply: &mut Reply, uri: &str) {
    begin_notice(reply, uri);
    reply.text(",\"diagnostics\":[]}}");
}

fn begin_notice(reply: &mut Reply, uri: &str) {
    reply.text(
        "{\"jsonrpc\":\"2.0\",\"method\":\"textDocument/publishDiagnostics\",\"params\":{\"uri\":",
    );
    reply.string(uri.as_bytes());
}

fn write_all(reply: &mut Reply, about: About<'_>, diagnostics: &[Diagnostic]) {
    for (index, diagnostic) in diagnostics.iter().enumerate() {
        separate(reply, index);
        write_one(reply, about, diagnostic);
    }
}

/// Writes a comma before each item but the first.
pub(crate) fn separate(reply: &mut Reply, index: usize) {
    if index > 0 {
        reply.text(",");
    }
}

fn write_one(reply: &mut Reply, about: About<'_>, diagnostic: &Diagnostic) {
    reply.text("{\"range\":");
    write_range(reply, about, diagnostic.start, diagnostic.end);
    reply.text(match diagnostic.severity {
        Severity::Fault => ",\"severity\":1,\"source\":\"rbg\",\"code\":",
        Severity::Warning => ",\"severity\":2,\"source\":\"rbg\",\"code\":",
    });
    reply.string(diagnostic.code.as_bytes());
    reply.text(",\"message\":");
    reply.string(&diagnostic.message);
    reply.text(",\"relatedInformation\":[");
    for (index, related) in diagnostic.related.iter().enumerate() {
        separate(reply, index);
        write_related(reply, about, related);
    }
    reply.text("]}");
}

fn write_range(reply: &mut Reply, about: About<'_>, start: usize, end: usize) {
    reply.range(about.text, about.lines, Span { start, end });
}

fn write_related(reply: &mut Reply, about: About<'_>, related: &Related) {
    reply.text("{\"location\":{\"uri\":");
    reply.string(about.uri.as_bytes());
    reply.text(",\"range\":");
    write_range(reply, about, related.start, related.end);
    reply.text("},\"message\":");
    reply.string(&related.message);
    reply.text("}");
}
