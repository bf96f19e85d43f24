//! The command `referee` with an input whose last line may not be whole, as the log of a match that was stopped.
ghost use Rattle.std.specs.Prelude.{ℕ, List, Option, option_map};
ghost use Rattle.rbg_console.specs.Inputs.{IsReading, most_input};
ghost use Rattle.rbg_hosting.specs.Runs.{IsCutRun, IsRefereeRun};

use rbg_console::{Files, Input, MAX_INPUT, Status, read_input, write_text};
use rbg_operations::run_match;
use rbg_referee::run_referee;
use rbg_serving::whole_lines;
use std::alloc::Global;
use std::io::{Read, Write};

/// Does what `referee` does, but leaves out a last line of the input that has no line feed. Without a file the description
/// stands before the script in the input. Nothing is written before all is read and judged.
pub fn run_cut<F: Files, R: Read, W: Write>(
    alloc: Global,
    file: Option<&str>,
    files: &mut F,
    input: &mut R,
    output: &mut W,
) -> Status
    ensures { IsCutRun (F.told files.old) (R.remaining input.old) (R.remaining input.new)
        (option_map (λ name. name.now) file.entry) (W.contents output.old) (W.contents output.new) result }
{
    match read_input(alloc, input, MAX_INPUT) {
        Ok(read) => run_read(alloc, file, files, &read, output),
        Err(_) => write_text(output, b"memory\n", Status::Memory),
    }
}

/// The same where this was read of the input.
fn run_read<F: Files, W: Write>(
    alloc: Global,
    file: Option<&str>,
    files: &mut F,
    read: &Input,
    output: &mut W,
) -> Status
    ensures { (unread left : Option (List ℕ)) → IsReading most_input unread left read.now →
        IsCutRun (F.told files.old) unread left
        (option_map (λ name. name.now) file.entry) (W.contents output.old) (W.contents output.new) result }
{
    match read {
        Input::Whole(bytes) => run_bytes(alloc, file, files, whole_lines(bytes.as_slice()), output),
        Input::TooLong => write_text(output, b"script 0\n", Status::BadInput),
        Input::Device => write_text(output, b"device\n", Status::Device),
    }
}

/// Does what `referee` does where the input has these bytes.
fn run_bytes<F: Files, W: Write>(
    alloc: Global,
    file: Option<&str>,
    files: &mut F,
    bytes: &[u8],
    output: &mut W,
) -> Status
    ensures { IsRefereeRun (F.told files.old) (option_map (λ name. name.now) file.entry) bytes.now
        (W.contents output.old) (W.contents output.new) result }
{
    let mut input = bytes;
    match file {
        Some(file) => run_match(alloc, file, files, &mut input, output),
        None => run_referee(alloc, &mut input, output),
    }
}
