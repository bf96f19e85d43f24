//! What `import` prints of a text of the paper's language.

use crate::game_files::{Read, read_source};
use crate::report::Report;
use rbg_console::{Files, Note, Status};
use rbg_import::{ImportFault, Imported, import};
use rbg_macro::TextLine;
use std::alloc::{AllocError, Global};
use std::io;

/// The text of a file as this language spells it. What can't be rewritten is reported by line, and then nothing is printed.
pub(crate) fn import_file<F: Files, R: io::Read>(
    alloc: Global,
    files: &mut F,
    input: &mut R,
    file: &str,
) -> Result<Report, AllocError> {
    match read_source(alloc, files, input, file)? {
        Read::Found(text) => import_text(alloc, files, file, &text),
        Read::Other(report) => Ok(report),
    }
}

fn import_text<F: Files>(
    alloc: Global,
    files: &mut F,
    file: &str,
    text: &[u8],
) -> Result<Report, AllocError> {
    match import(alloc, text)? {
        Imported::Text(text) => Ok(Report {
            text,
            status: Status::Success,
        }),
        Imported::Faults(faults) => {
            report_faults(alloc, files, file, text, &faults)?;
            Ok(Report {
                text: Vec::new(alloc),
                status: Status::BadInput,
            })
        }
    }
}

/// Reports each thing that can't be rewritten, with its line and its column.
fn report_faults<F: Files>(
    alloc: Global,
    files: &mut F,
    file: &str,
    text: &[u8],
    faults: &[ImportFault],
) -> Result<(), AllocError> {
    for fault in faults {
        let words = fault_words(alloc, file, text, fault)?;
        files.tell(&Note::Words { text: &words });
    }
    Ok(())
}

fn fault_words(
    alloc: Global,
    file: &str,
    text: &[u8],
    fault: &ImportFault,
) -> Result<String, AllocError> {
    let at = fault.at.min(text.len());
    let line = TextLine::of(text, at);
    let number = line.number;
    let column = (at - line.start).saturating_add(1);
    let words = fault.kind.words();
    format!(in alloc; "{file}:{number}:{column}: {words}")
}
