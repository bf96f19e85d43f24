//! Faults and warnings as they are printed.

use crate::diagnostic::{Diagnostic, Severity};
use crate::message_writer::{MessageWriter, line_and_column};
use rbg_macro::TextLine;
use rbg_warnings::Excerpt;
use std::alloc::{AllocError, Global};

/// A file's name, and its text.
#[derive(Clone, Copy)]
pub struct File<'a> {
    pub name: &'a str,
    pub text: &'a [u8],
}

/// Adds the printed lines of faults and warnings of a file: the file, the line, the column and the message; for a fault
/// the line itself with carets below the place; and a line for each other place.
pub fn push_diagnostics(
    alloc: Global,
    output: &mut Vec<u8>,
    file: File<'_>,
    diagnostics: &[Diagnostic],
) -> Result<(), AllocError> {
    let mut writer = MessageWriter::new(alloc, output);
    for diagnostic in diagnostics {
        write_diagnostic(&mut writer, file, diagnostic);
    }
    writer.end()
}

fn write_diagnostic(writer: &mut MessageWriter<'_>, file: File<'_>, diagnostic: &Diagnostic) {
    writer.text(file.name);
    writer.place(":", line_and_column(file.text, diagnostic.start), ": ");
    writer.bytes(&diagnostic.message);
    writer.text("\n");
    if diagnostic.severity == Severity::Fault && diagnostic.start < diagnostic.end {
        let shown = file
            .text
            .get(diagnostic.start..diagnostic.end)
            .unwrap_or(&[]);
        let width = count_characters(shown);
        writer.excerpt(&excerpt_of(file.text, diagnostic.start, width));
    }
    for related in &diagnostic.related {
        writer.bytes(&related.message);
        writer.text("\n");
    }
}

/// How many characters begin in some bytes of UTF-8.
fn count_characters(bytes: &[u8]) -> usize {
    let mut count = 0usize;
    for byte in bytes {
        if *byte < 0x80 || *byte >= 0xc0 {
            count = count.saturating_add(1);
        }
    }
    count
}

/// The line with `width` bytes at an offset, or at the end of the text for an offset past it.
fn excerpt_of(text: &[u8], at: usize, width: usize) -> Excerpt<'_> {
    let at = at.min(text.len());
    let line = TextLine::of(text, at);
    Excerpt {
        number: line.number,
        bytes: line.bytes.strip_suffix(b"\r").unwrap_or(line.bytes),
        offset: at - line.start,
        width,
    }
}
