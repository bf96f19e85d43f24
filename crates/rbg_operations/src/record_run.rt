//! A run of `referee` with a record.
ghost use Rattle.std.specs.Prelude.{IfOk, option_map};
ghost use Rattle.rbg_operations.specs.RecordRuns.{IsRecordedAnswer, IsRecordedRun};
ghost use Rattle.rbg_operations.specs.Tasks.{recorded_task};

use self::described::record_read;
use self::marked::record_marked;
use crate::reading::{answer_unread, read_match};
use rbg_console::{Files, Input, MAX_INPUT, Status, read_input};
use rbg_referee::{Answer, answer_device, answer_script, write_answer};
use std::alloc::{AllocError, Global};
use std::io::{Read, Write};

mod described;
mod filing;
mod marked;

/// The files of a match that is recorded: that of the description, if one is named, and the new one for the record.
#[derive(Clone, Copy)]
pub struct RecordedFiles<'a> {
    pub file: Option<&'a str>,
    pub target: &'a str,
}

/// Reads a description and a script, referees their match, writes its record to a new file, and then what is printed.
/// Without a file standard input holds the description, a line `%%` and the script. Nothing is written before all is
/// read. The file for the record is created before the match is refereed. If there is no match, it stays empty, or
/// isn't created if a text is too long or there is no mark.
pub fn run_recorded<F: Files, R: Read, W: Write>(
    alloc: Global,
    named: RecordedFiles<'_>,
    files: &mut F,
    input: &mut R,
    output: &mut W,
) -> Status
    ensures { IsRecordedRun F.knows_new (F.told files.old) (F.told files.new)
        (R.remaining input.old) (R.remaining input.new)
        (recorded_task (option_map (λ name. name.now) named.entry.file) named.entry.target.now)
        (W.contents output.old) (W.contents output.new) result }
{
    let answered = answer_recorded(alloc, named, files, input);
    write_answer(output, answered)
}

/// The answer to what the files and standard input have.
fn answer_recorded<F: Files, R: Read>(
    alloc: Global,
    named: RecordedFiles<'_>,
    files: &mut F,
    input: &mut R,
) -> Result<Answer, AllocError>
    ensures { IfOk result (λ answer. IsRecordedAnswer F.knows_new (F.told files.old) (F.told files.new)
        (R.remaining input.old) (R.remaining input.new)
        (recorded_task (option_map (λ name. name.now) named.entry.file) named.entry.target.now)
        answer.text.items answer.status) }
{
    let target = named.target;
    match named.file {
        Some(file) => match read_match(alloc, files, file, input) {
            Ok(texts) => record_read(alloc, &texts, target, files),
            Err(unread) => answer_unread(alloc, unread),
        },
        None => match read_input(alloc, input, MAX_INPUT)? {
            Input::Whole(bytes) => record_marked(alloc, target, files, bytes.as_slice()),
            Input::TooLong => answer_script(alloc, 0),
            Input::Device => answer_device(alloc),
        },
    }
}
