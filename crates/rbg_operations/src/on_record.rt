//! The commands on a game and a record of it: both files are read, and the command answers.
ghost use Rattle.std.specs.Prelude.{ℕ, List, Option, IfOk};
ghost use Rattle.rbg_operations.specs.Answers.{IsGamesAnswer};
ghost use Rattle.rbg_operations.specs.Runs.{IsTaskRun};
ghost use Rattle.rbg_operations.specs.Tasks.{on_record};
ghost use Rattle.rbg_operations.specs.internal.Parts.{IsFilesAnswer};
ghost use Rattle.rbg_operations.specs.internal.RecordCommands.{command_of};

use crate::migrate::rewrite;
use crate::moves::list_after;
use crate::opening::{Opened, open_files};
use crate::replay::judge;
use crate::telling::write_and_tell;
use rbg_console::{Files, Status};
use rbg_game::Game;
use rbg_referee::Answer;
use std::alloc::{AllocError, Global};
use std::io::Write;

/// A command on a game and a record of it.
#[derive(Clone, Copy)]
pub(crate) enum RecordCommand {
    Replay,
    Migrate,
    Moves,
}

/// A command with the names of the files of its game and its record.
#[derive(Clone, Copy)]
pub(crate) struct RecordTask<'a> {
    pub(crate) command: RecordCommand,
    pub(crate) file: &'a str,
    pub(crate) record_file: &'a str,
}

/// Prints the answer to a command. Nothing is written before all is read and judged.
pub(crate) fn run_on_record<F: Files, W: Write>(
    alloc: Global,
    task: RecordTask<'_>,
    files: &mut F,
    output: &mut W,
) -> Status
    ensures { (unread : Option (List ℕ)) → IsTaskRun (F.told files.old) unread unread
        (on_record (command_of task.entry.command) task.entry.file.now task.entry.record_file.now)
        (W.contents output.old) (W.contents output.new) result }
{
    let answered = answer_files(alloc, task, files);
    write_and_tell(files, output, answered)
}

/// The answer to what the files have.
fn answer_files<F: Files>(
    alloc: Global,
    task: RecordTask<'_>,
    files: &mut F,
) -> Result<Answer, AllocError>
    ensures { IfOk result (λ answer. (unread : Option (List ℕ)) →
        IsFilesAnswer (F.told files.old) unread unread
        (on_record (command_of task.entry.command) task.entry.file.now task.entry.record_file.now)
        answer.text.items answer.status) }
{
    match open_files(alloc, task.file, task.record_file, files)? {
        Opened::Both { game, told } => answer_opened(alloc, task.command, game, told.as_slice()),
        Opened::Answered(answer) => Ok(answer),
    }
}

/// The answer to a command on a game and a record.
fn answer_opened(
    alloc: Global,
    command: RecordCommand,
    game: Game,
    told: &[u8],
) -> Result<Answer, AllocError>
    ensures { IfOk result (λ answer. (description : List ℕ) →
        IsGamesAnswer game description told.now (command_of command) answer.text.items answer.status) }
{
    match command {
        RecordCommand::Replay => judge(alloc, game, told),
        RecordCommand::Migrate => rewrite(alloc, &game, told),
        RecordCommand::Moves => list_after(alloc, game, told),
    }
}
