//! The command `migrate`.
ghost use Rattle.std.specs.Prelude.{ℕ, List, Option, IfOk};
ghost use Rattle.rbg_operations.specs.Answers.{IsGamesAnswer};
ghost use Rattle.rbg_operations.specs.Runs.{IsTaskRun};
ghost use Rattle.rbg_operations.specs.Tasks.{on_record};
ghost use Rattle.rbg_operations.specs.Tasks.FileCommand.{Migrate};

use crate::lines::answer_record_fault;
use crate::on_record::{RecordCommand, RecordTask, run_on_record};
use rbg_console::{Files, Status};
use rbg_game::Game;
use rbg_record::migrate;
use rbg_referee::Answer;
use std::alloc::{AllocError, Global};
use std::io::Write;

/// Prints version 2 of the record of version 1 that the other file has. Nothing is written before all is read and judged.
pub fn run_migrate<F: Files, W: Write>(
    alloc: Global,
    file: &str,
    other: &str,
    files: &mut F,
    output: &mut W,
) -> Status
    ensures { (unread : Option (List ℕ)) → IsTaskRun (F.told files.old) unread unread
        (on_record Migrate file.now other.now)
        (W.contents output.old) (W.contents output.new) result }
{
    let task = RecordTask {
        command: RecordCommand::Migrate,
        file,
        record_file: other,
    };
    run_on_record(alloc, task, files, output)
}

/// Version 2 of a record of version 1.
pub(crate) fn rewrite(alloc: Global, game: &Game, told: &[u8]) -> Result<Answer, AllocError>
    ensures { IfOk result (λ answer. (description : List ℕ) →
        IsGamesAnswer game.now description told.now Migrate answer.text.items answer.status) }
{
    match migrate(alloc, game, told) {
        Ok(text) => Ok(Answer {
            text,
            status: Status::Success,
        }),
        Err(error) => answer_record_fault(alloc, error),
    }
}
