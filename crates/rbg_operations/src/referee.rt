//! The command `referee` with a file.
ghost use Rattle.std.specs.Prelude.{IfOk};
ghost use Rattle.rbg_operations.specs.Runs.{IsTaskRun};
ghost use Rattle.rbg_operations.specs.Tasks.{on_file};
ghost use Rattle.rbg_operations.specs.Tasks.FileCommand.{Referee};
ghost use Rattle.rbg_operations.specs.internal.Parts.{
  AnswersMatch,
  AnswersTexts,
  AnswersWhole,
  IsFilesAnswer,
};

use crate::reading::{answer_unread, read_match};
use crate::telling::write_and_tell;
use crate::texts::Texts;
use rbg_console::{Files, Status};
use rbg_game::LoadError;
use rbg_macro::TextError;
use rbg_referee::{Answer, answer_fault, answer_refused, answer_script, referee_texts};
use std::alloc::{AllocError, Global};
use std::io::{Read, Write};

/// Referees the match of the script on standard input, and prints its lines. Nothing is written before all is read and
/// judged.
pub fn run_match<F: Files, R: Read, W: Write>(
    alloc: Global,
    file: &str,
    files: &mut F,
    input: &mut R,
    output: &mut W,
) -> Status
    ensures { IsTaskRun (F.told files.old) (R.remaining input.old) (R.remaining input.new)
        (on_file Referee file.now) (W.contents output.old) (W.contents output.new) result }
{
    let answered = answer_files(alloc, file, files, input);
    write_and_tell(files, output, answered)
}

/// The answer to what the file and standard input have.
fn answer_files<F: Files, R: Read>(
    alloc: Global,
    file: &str,
    files: &mut F,
    input: &mut R,
) -> Result<Answer, AllocError>
    ensures { IfOk result (λ answer. IsFilesAnswer (F.told files.old) (R.remaining input.old)
        (R.remaining input.new) (on_file Referee file.now) answer.text.items answer.status) }
{
    match read_match(alloc, files, file, input) {
        Ok(texts) => answer_texts(alloc, &texts),
        Err(unread) => answer_unread(alloc, unread),
    }
}

/// The answer to what was read of a description and a script.
pub(crate) fn answer_texts(alloc: Global, texts: &Texts) -> Result<Answer, AllocError>
    ensures { IfOk result (λ answer. AnswersTexts Referee texts.now.description texts.now.told
        answer.text.items answer.status) }
{
    match &texts.told {
        Some(script) => answer_whole(alloc, &texts.description, script.as_slice()),
        None => answer_script(alloc, 0),
    }
}

/// The answer if all of a script was read.
fn answer_whole(
    alloc: Global,
    description: &Option<Vec<u8>>,
    script: &[u8],
) -> Result<Answer, AllocError>
    ensures { IfOk result (λ answer.
        AnswersWhole Referee description.now script.now answer.text.items answer.status) }
{
    match description {
        Some(text) => answer_match(alloc, text.as_slice(), script),
        None => answer_refused(alloc, LoadError::Text(TextError::TooLong)),
    }
}

/// The lines of the match of a description and a script.
fn answer_match(alloc: Global, description: &[u8], script: &[u8]) -> Result<Answer, AllocError>
    ensures { IfOk result (λ answer.
        AnswersMatch description.now script.now answer.text.items answer.status) }
{
    match referee_texts(alloc, description, script) {
        Ok(lines) => Ok(Answer {
            text: lines,
            status: Status::Success,
        }),
        Err(error) => answer_fault(alloc, error),
    }
}
