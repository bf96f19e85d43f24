//! Answers that are written, and what they mean in a sentence on standard error.
ghost use Rattle.rbg_referee.specs.Runs.{WritesAnswer};

use rbg_console::{Files, Note, Status, meaning_of};
use rbg_referee::{Answer, write_answer};
use std::alloc::AllocError;
use std::io::Write;

/// Writes an answer. Then a note tells what its line means, if it is one that doesn't say it itself.
pub(crate) fn write_and_tell<F: Files, W: Write>(
    files: &mut F,
    output: &mut W,
    answered: Result<Answer, AllocError>,
) -> Status
    ensures { WritesAnswer answered (W.contents output.old) (W.contents output.new) result }
{
    let meaning = meaning_in(&answered);
    let status = write_answer(output, answered);
    if let Some(text) = meaning {
        files.tell(&Note::Words { text });
    }
    status
}

/// What the line of an answer means, if it is one that doesn't say it itself.
fn meaning_in(answered: &Result<Answer, AllocError>) -> Option<&'static str> {
    match answered {
        Ok(answer) => meaning_of(answer.text.as_slice()),
        Err(_) => None,
    }
}
