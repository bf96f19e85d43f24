//! Reading records, whose lines end in LF alone.
ghost use Rattle.std.specs.Prelude.{IfOk};
ghost use Rattle.rbg_console.specs.Files.{IsFileReading, KeepsFiles};
ghost use Rattle.rbg_console.specs.Inputs.{IsReading, most_input};

use crate::files::Files;
use crate::input::{Input, MAX_INPUT, read_input};
use crate::note::Note;
use std::alloc::{AllocError, Global};
use std::io::Read;

/// Reads a file, up to as many bytes as an input may have. If lines of it end in CR LF, a note reports it.
pub fn read_record<F: Files>(alloc: Global, files: &mut F, name: &str) -> Result<Input, AllocError>
    ensures read { IfOk result (IsFileReading most_input (F.told files.old name.now)) }
    ensures kept { KeepsFiles (F.told files.old) (F.told files.new) }
{
    let read = files.read_file(alloc, name, MAX_INPUT)?;
    tell_line_ends(files, name, &read);
    Ok(read)
}

/// Reads standard input. If lines of it end in CR LF, a note reports it.
pub fn read_record_input<F: Files, R: Read>(
    alloc: Global,
    files: &mut F,
    input: &mut R,
) -> Result<Input, AllocError>
    ensures read { IfOk result (IsReading most_input (R.remaining input.old) (R.remaining input.new)) }
    ensures kept { KeepsFiles (F.told files.old) (F.told files.new) }
{
    let read = read_input(alloc, input, MAX_INPUT)?;
    tell_line_ends(files, "standard input", &read);
    Ok(read)
}

/// Sends a note if lines of what was read end in CR LF.
fn tell_line_ends<F: Files>(files: &mut F, name: &str, read: &Input)
    ensures { KeepsFiles (F.told files.old) (F.told files.new) }
{
    if has_cr_lf(read) {
        files.tell(&Note::LineEnds { name });
    }
}

/// Whether a carriage return comes directly before a line feed.
fn has_cr_lf(read: &Input) -> bool {
    match read {
        Input::Whole(bytes) => bytes
            .as_slice()
            .windows(2)
            .any(|pair| pair == b"\r\n".as_slice()),
        Input::TooLong | Input::Device => false,
    }
}
