//! The command `check`.
ghost use Rattle.std.specs.Prelude.{◌≡◌, ℕ, [], List, Option, IfOk};
ghost use Rattle.rbg_operations.specs.Answers.{IsGamesAnswer};
ghost use Rattle.rbg_operations.specs.Runs.{IsTaskRun};
ghost use Rattle.rbg_operations.specs.Tasks.{on_file};
ghost use Rattle.rbg_operations.specs.Tasks.FileCommand.{Check};
ghost use Rattle.rbg_operations.specs.internal.Parts.{AnswersWhole, IsFilesAnswer};

use crate::loading::{answer_unloaded, load_read};
use crate::reading::{answer_unread, read_within};
use crate::telling::write_and_tell;
use rbg_console::{Files, Status, count_line};
use rbg_game::Game;
use rbg_macro::MAX_TEXT;
use rbg_referee::Answer;
use std::alloc::{AllocError, Global};
use std::io::Write;

/// Prints how many of each thing the game of a file has. Nothing is written before all is read and judged.
pub fn run_check<F: Files, W: Write>(
    alloc: Global,
    file: &str,
    files: &mut F,
    output: &mut W,
) -> Status
    ensures { (unread : Option (List ℕ)) → IsTaskRun (F.told files.old) unread unread
        (on_file Check file.now) (W.contents output.old) (W.contents output.new) result }
{
    let answered = answer_file(alloc, file, files);
    write_and_tell(files, output, answered)
}

/// The answer to what the file has.
fn answer_file<F: Files>(alloc: Global, file: &str, files: &mut F) -> Result<Answer, AllocError>
    ensures { IfOk result (λ answer. (unread : Option (List ℕ)) →
        IsFilesAnswer (F.told files.old) unread unread (on_file Check file.now)
        answer.text.items answer.status) }
{
    match read_within(alloc, files, file, MAX_TEXT) {
        Ok(description) => answer_read(alloc, &description),
        Err(unread) => answer_unread(alloc, unread),
    }
}

/// The answer to what was read of a description.
fn answer_read(alloc: Global, description: &Option<Vec<u8>>) -> Result<Answer, AllocError>
    ensures { IfOk result (λ answer.
        AnswersWhole Check description.now [] answer.text.items answer.status) }
{
    match load_read(alloc, description) {
        Ok(game) => count(alloc, &game),
        Err(error) => answer_unloaded(alloc, error),
    }
}

/// The counts of a game.
fn count(alloc: Global, game: &Game) -> Result<Answer, AllocError>
    ensures { IfOk result (λ answer. (description told : List ℕ) →
        IsGamesAnswer game.now description told Check answer.text.items answer.status) }
{
    let mut line = count_line(alloc, game)?;
    line.push('\n')?;
    Ok(Answer {
        text: line.into_bytes(),
        status: Status::Success,
    })
}
