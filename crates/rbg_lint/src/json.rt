//! Faults and warnings in JSON.

use crate::diagnostic::{Diagnostic, Related, Severity};
use crate::message_writer::{MessageWriter, line_and_column};
use crate::printed_lines::File;
use std::alloc::{AllocError, Global};

/// Adds a JSON array of faults and warnings of a file, each in a line. Lines and columns are counted from 1, offsets from
/// 0, and all of them in bytes.
pub fn push_json(
    alloc: Global,
    output: &mut Vec<u8>,
    file: File<'_>,
    diagnostics: &[Diagnostic],
) -> Result<(), AllocError> {
    let mut writer = MessageWriter::new(alloc, output);
    let mut before = "[\n";
    for diagnostic in diagnostics {
        writer.text(before);
        write_diagnostic(&mut writer, file, diagnostic);
        before = ",\n";
    }
    writer.text(if diagnostics.is_empty() {
        "[]\n"
    } else {
        "\n]\n"
    });
    writer.end()
}

fn write_diagnostic(writer: &mut MessageWriter<'_>, file: File<'_>, diagnostic: &Diagnostic) {
    writer.text("{\"file\":\"");
    write_escaped(writer, file.name.as_bytes());
    writer.text("\",");
    write_span(writer, file.text, diagnostic.start, diagnostic.end);
    writer.text(match diagnostic.severity {
        Severity::Fault => ",\"severity\":\"fault\",\"code\":\"",
        Severity::Warning => ",\"severity\":\"warning\",\"code\":\"",
    });
    writer.text(diagnostic.code);
    write_message(writer, &diagnostic.message);
    write_related(writer, file.text, &diagnostic.related);
    writer.text("}");
}

/// Writes a message, after the text of another member.
fn write_message(writer: &mut MessageWriter<'_>, message: &[u8]) {
    writer.text("\",\"message\":\"");
    write_escaped(writer, message);
    writer.text("\"");
}

/// Writes the place of some bytes.
fn write_span(writer: &mut MessageWriter<'_>, text: &[u8], start: usize, end: usize) {
    let (line, column) = line_and_column(text, start);
    writer.number("\"line\":", line, ",");
    writer.number("\"column\":", column, ",");
    writer.number("\"start\":", start, ",");
    writer.number("\"end\":", end, "");
}

fn write_related(writer: &mut MessageWriter<'_>, text: &[u8], related: &[Related]) {
    let mut before = ",\"related\":[{";
    for place in related {
        writer.text(before);
        write_span(writer, text, place.start, place.end);
        writer.text(",\"message\":\"");
        write_escaped(writer, &place.message);
        writer.text("\"}");
        before = ",{";
    }
    if !related.is_empty() {
        writer.text("]");
    }
}

/// Writes the bytes of a text between quotes.
fn write_escaped(writer: &mut MessageWriter<'_>, bytes: &[u8]) {
    for byte in bytes {
        match *byte {
            b'"' => writer.text("\\\""),
            b'\\' => writer.text("\\\\"),
            b'\n' => writer.text("\\n"),
            b'\t' => writer.text("\\t"),
            0..=31 | 127 => writer.text("?"),
            other => writer.bytes(&[other]),
        }
    }
}
