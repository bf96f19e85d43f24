//! A run of `moves`: a file is read, judged and answered.
ghost use Rattle.std.specs.Prelude.{IfOk};
ghost use Rattle.rbg_operations.specs.ListingRuns.{IsFilesMoves, IsMovesRun};

use crate::answer::answer_moves;
use crate::loading::answer_unloaded;
use crate::telling::write_and_tell;
use rbg_console::{Files, Input, Status};
use rbg_game::LoadError;
use rbg_macro::{MAX_TEXT, TextError};
use rbg_referee::{Answer, answer_device};
use std::alloc::{AllocError, Global};
use std::io::Write;

/// Prints the moves of the opening of the file's game, and the moves with which play can continue.
pub fn run_moves<F: Files, W: Write>(
    alloc: Global,
    file: &str,
    files: &mut F,
    output: &mut W,
) -> Status
    ensures { IsMovesRun (F.told files.old file.now) (W.contents output.old) (W.contents output.new) result }
{
    let answered = answer_file(alloc, file, files);
    write_and_tell(files, output, answered)
}

/// The answer to a file.
fn answer_file<F: Files>(alloc: Global, file: &str, files: &mut F) -> Result<Answer, AllocError>
    ensures { IfOk result (λ answer. IsFilesMoves (F.told files.old file.now) answer.text.items answer.status) }
{
    match files.read_file(alloc, file, MAX_TEXT)? {
        Input::Whole(text) => answer_moves(alloc, text.as_slice()),
        Input::TooLong => answer_unloaded(alloc, LoadError::Text(TextError::TooLong)),
        Input::Device => answer_device(alloc),
    }
}
