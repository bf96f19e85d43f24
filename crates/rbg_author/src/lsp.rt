//! The server for editors.

use crate::report::Report;
use rbg_console::{Files, Note, Status};
use rbg_explain::{Diagnostic, diagnostics};
use rbg_lsp::{End, FramingError, Judge, serve};
use std::alloc::{AllocError, Global};
use std::io::{self, Write};

/// Judges texts as `explain` and `check` do.
struct Explained;

impl Judge for Explained {
    fn diagnostics(&self, alloc: Global, text: &[u8]) -> Result<Vec<Diagnostic>, AllocError> {
        diagnostics(alloc, text)
    }
}

/// Answers an editor over the input and the output until it asks for the end.
pub(crate) fn serve_editor<F: Files, R: io::Read, W: Write>(
    alloc: Global,
    files: &mut F,
    input: &mut R,
    output: &mut W,
) -> Result<Report, AllocError> {
    let end = serve(alloc, &Explained, input, output)?;
    if let End::Broken(error) = end {
        report_broken(alloc, files, error)?;
    }
    Ok(Report {
        text: Vec::new(alloc),
        status: status_of(end),
    })
}

/// Reports why the input isn't made of messages.
fn report_broken<F: Files>(
    alloc: Global,
    files: &mut F,
    error: FramingError,
) -> Result<(), AllocError> {
    let text = format!(in alloc; "lsp: {error}")?;
    files.tell(&Note::Words { text: &text });
    Ok(())
}

fn status_of(end: End) -> Status {
    match end {
        End::Asked {
            was_shut_down: true,
        } => Status::Success,
        End::Asked {
            was_shut_down: false,
        }
        | End::Closed
        | End::Broken(_) => Status::Refused,
        End::Device => Status::Device,
    }
}
