//! The command `replay`.
ghost use Rattle.std.specs.Prelude.{ℕ, List, Option, IfOk};
ghost use Rattle.rbg_operations.specs.Answers.{IsGamesAnswer};
ghost use Rattle.rbg_operations.specs.Runs.{IsTaskRun};
ghost use Rattle.rbg_operations.specs.Tasks.{on_record};
ghost use Rattle.rbg_operations.specs.Tasks.FileCommand.{Replay};

use crate::lines::answer_checked;
use crate::on_record::{RecordCommand, RecordTask, run_on_record};
use crate::opening::played_game;
use rbg_console::{Files, Status};
use rbg_game::Game;
use rbg_record::check_record;
use rbg_referee::Answer;
use std::alloc::{AllocError, Global};
use std::io::Write;

/// Prints whether the record that the other file has is right. Nothing is written before all is read and judged.
pub fn run_replay<F: Files, W: Write>(
    alloc: Global,
    file: &str,
    other: &str,
    files: &mut F,
    output: &mut W,
) -> Status
    ensures { (unread : Option (List ℕ)) → IsTaskRun (F.told files.old) unread unread
        (on_record Replay file.now other.now)
        (W.contents output.old) (W.contents output.new) result }
{
    let task = RecordTask {
        command: RecordCommand::Replay,
        file,
        record_file: other,
    };
    run_on_record(alloc, task, files, output)
}

/// Whether a record is right.
pub(crate) fn judge(alloc: Global, game: Game, told: &[u8]) -> Result<Answer, AllocError>
    ensures { IfOk result (λ answer. (description : List ℕ) →
        IsGamesAnswer game description told.now Replay answer.text.items answer.status) }
{
    let played = played_game(alloc, game)?;
    answer_checked(alloc, check_record(&played, told))
}
