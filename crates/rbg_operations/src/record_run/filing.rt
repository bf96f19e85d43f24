//! Refereeing the match of two texts, with its record in a new file.
ghost use Rattle.std.specs.Prelude.{◌≡◌, [], IfOk, Some};
ghost use Rattle.rbg_operations.specs.internal.RecordParts.{RecordsMatch, RecordsTexts, WritesRecord};

use crate::{Recorded, referee_recorded};
use rbg_console::{Files, Status, fill_file};
use rbg_referee::{Answer, answer_device, answer_fault};
use rbg_script::TwoTexts;
use std::alloc::{AllocError, Global};

/// Creates the file for the record, referees the match, and writes the record.
pub(super) fn record_texts<F: Files>(
    alloc: Global,
    target: &str,
    files: &mut F,
    texts: TwoTexts<'_>,
) -> Result<Answer, AllocError>
    ensures { IfOk result (λ answer. RecordsTexts F.knows_new (F.told files.old target.now)
        (F.told files.new target.now) texts.entry.description.now texts.entry.script.now answer.text.items answer.status) }
{
    match files.create_file(alloc, target) {
        Ok(file) => record_match(alloc, target, file, files, texts),
        Err(_) => answer_device(alloc),
    }
}

/// Referees the match, and writes its record to a file that was created for it.
fn record_match<F: Files>(
    alloc: Global,
    target: &str,
    file: F::NewFile,
    files: &mut F,
    texts: TwoTexts<'_>,
) -> Result<Answer, AllocError>
    requires { F.knows_new → F.NewFile.contents file ≡ Some [] }
    ensures { IfOk result (λ answer. RecordsMatch F.knows_new (F.told files.new target.now)
        texts.entry.description.now texts.entry.script.now answer.text.items answer.status) }
{
    match referee_recorded(alloc, texts.description, texts.script) {
        Ok(recorded) => write_recorded(alloc, target, file, files, recorded),
        Err(error) => answer_fault(alloc, error),
    }
}

/// Writes the record, and gives the lines of the match.
fn write_recorded<F: Files>(
    alloc: Global,
    target: &str,
    file: F::NewFile,
    files: &mut F,
    recorded: Recorded,
) -> Result<Answer, AllocError>
    requires { F.knows_new → F.NewFile.contents file ≡ Some [] }
    ensures { IfOk result (λ answer. WritesRecord F.knows_new (F.told files.new target.now)
        recorded.lines.items recorded.told.items answer.text.items answer.status) }
{
    match fill_file(alloc, files, target, file, recorded.told.as_slice()) {
        Ok(()) => Ok(Answer {
            text: recorded.lines,
            status: Status::Success,
        }),
        Err(_) => answer_device(alloc),
    }
}
