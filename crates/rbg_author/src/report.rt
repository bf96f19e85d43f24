//! What the program prints, and its status.

use rbg_console::{Files, Note, Status, WordsError, meaning_of, write_text, write_words};
use std::io::Write;

/// What the program prints, and its status.
#[derive(Drop)]
pub struct Report {
    pub text: Vec<u8>,
    pub status: Status,
}

/// Writes what a task gave, or that memory ran out, and returns the status. A note tells what a fault's line means, if it
/// doesn't say it itself. What is wrong with words is reported, and nothing is written.
pub fn print<F: Files, W: Write>(
    files: &mut F,
    output: &mut W,
    outcome: &Result<Report, WordsError>,
) -> Status {
    match outcome {
        Ok(report) => {
            let status = write_text(output, report.text.as_slice(), report.status);
            tell_meaning(files, report);
            status
        }
        Err(error) => write_words(files, output, error, b"out of memory\n"),
    }
}

/// Tells what the line of a fault means, if it doesn't say it itself.
pub(crate) fn tell_meaning<F: Files>(files: &mut F, report: &Report) {
    if matches!(report.status, Status::Refused | Status::BadInput)
        && let Some(text) = meaning_of(report.text.as_slice())
    {
        files.tell(&Note::Words { text });
    }
}
