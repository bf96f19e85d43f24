//! The command `moves` with a record.
ghost use Rattle.std.specs.Prelude.{ℕ, List, Option, IfOk};
ghost use Rattle.rbg_operations.specs.Answers.{IsGamesAnswer};
ghost use Rattle.rbg_operations.specs.Runs.{IsTaskRun};
ghost use Rattle.rbg_operations.specs.Tasks.{on_record};
ghost use Rattle.rbg_operations.specs.Tasks.FileCommand.{Moves};

use crate::after::moves_beyond;
use crate::lines::answer_checked;
use crate::on_record::{RecordCommand, RecordTask, run_on_record};
use crate::opening::played_game;
use rbg_console::{Files, Status};
use rbg_game::Game;
use rbg_referee::Answer;
use std::alloc::{AllocError, Global};
use std::io::Write;

/// Prints the moves with which play can continue after the record that the other file has. Nothing is written before
/// all is read and judged.
pub fn run_moves_after<F: Files, W: Write>(
    alloc: Global,
    file: &str,
    other: &str,
    files: &mut F,
    output: &mut W,
) -> Status
    ensures { (unread : Option (List ℕ)) → IsTaskRun (F.told files.old) unread unread
        (on_record Moves file.now other.now)
        (W.contents output.old) (W.contents output.new) result }
{
    let task = RecordTask {
        command: RecordCommand::Moves,
        file,
        record_file: other,
    };
    run_on_record(alloc, task, files, output)
}

/// The moves with which play can continue after a record.
pub(crate) fn list_after(alloc: Global, game: Game, told: &[u8]) -> Result<Answer, AllocError>
    ensures { IfOk result (λ answer. (description : List ℕ) →
        IsGamesAnswer game description told.now Moves answer.text.items answer.status) }
{
    let played = played_game(alloc, game)?;
    match moves_beyond(alloc, &played, told) {
        Ok(text) => Ok(Answer {
            text,
            status: Status::Success,
        }),
        Err(misfit) => answer_checked(alloc, misfit.checked()),
    }
}
