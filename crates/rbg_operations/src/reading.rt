//! Reading what a command asks for. All is read before any of it is judged.
ghost use Rattle.std.specs.Prelude.{◌≡◌, IfOk};
ghost use Rattle.rbg_console.specs.Files.{KeepsFiles};
ghost use Rattle.rbg_console.specs.Inputs.{most_input};
ghost use Rattle.rbg_referee.specs.Runs.{device_line};
ghost use Rattle.rbg_macro.specs.TextLimits.{longest_text};
ghost use Rattle.rbg_operations.specs.internal.Parts.{Gives, IsReadIn, IsReadInput};

use crate::texts::Texts;
use rbg_console::{Files, Input, MAX_INPUT, Status, read_input, read_record};
use rbg_macro::MAX_TEXT;
use rbg_referee::{Answer, answer_device};
use std::alloc::{AllocError, Global};
use std::io::Read;

/// Why not all is read.
#[derive(Clone, Copy)]
pub(crate) enum Unread {
    /// A file or standard input can't be read.
    Device,
    /// Out of memory.
    Memory,
}

impl From<AllocError> for Unread {
    fn from(_error: AllocError) -> Unread {
        Unread::Memory
    }
}

/// The line `device` of a file or of standard input that can't be read.
pub(crate) fn answer_unread(alloc: Global, unread: Unread) -> Result<Answer, AllocError>
    ensures text { IfOk result (λ answer. answer.text.items ≡ device_line) }
    ensures status { IfOk result (λ answer. answer.status ≡ Status.Device) }
{
    match unread {
        Unread::Device => answer_device(alloc),
        Unread::Memory => Err(AllocError),
    }
}

/// Reads a description, and a script from standard input.
pub(crate) fn read_match<F: Files, R: Read>(
    alloc: Global,
    files: &mut F,
    file: &str,
    input: &mut R,
) -> Result<Texts, Unread>
    ensures description { IfOk result (λ read.
        IsReadIn longest_text (F.told files.old file.now) read.description) }
    ensures told { IfOk result (λ read.
        IsReadInput (R.remaining input.old) (R.remaining input.new) read.told) }
    ensures kept { KeepsFiles (F.told files.old) (F.told files.new) }
{
    let description = read_within(alloc, files, file, MAX_TEXT)?;
    let told = read_script(alloc, input)?;
    Ok(Texts { description, told })
}

/// Reads a description and a record.
pub(crate) fn read_both<F: Files>(
    alloc: Global,
    files: &mut F,
    file: &str,
    other: &str,
) -> Result<Texts, Unread>
    ensures description { IfOk result (λ read.
        IsReadIn longest_text (F.told files.old file.now) read.description) }
    ensures told { IfOk result (λ read.
        IsReadIn most_input (F.told files.old other.now) read.told) }
{
    let description = read_within(alloc, files, file, MAX_TEXT)?;
    let told = read_told(alloc, files, other)?;
    Ok(Texts { description, told })
}

/// The bytes of a file, or None if there are more than `limit`.
pub(crate) fn read_within<F: Files>(
    alloc: Global,
    files: &mut F,
    name: &str,
    limit: usize,
) -> Result<Option<Vec<u8>>, Unread>
    ensures read { IfOk result (IsReadIn limit (F.told files.old name.now)) }
    ensures kept { KeepsFiles (F.told files.old) (F.told files.new) }
{
    given(files.read_file(alloc, name, limit)?)
}

/// The bytes of the file of a record, or None if there are more than an input may have.
fn read_told<F: Files>(alloc: Global, files: &mut F, name: &str) -> Result<Option<Vec<u8>>, Unread>
    ensures { IfOk result (IsReadIn most_input (F.told files.old name.now)) }
{
    given(read_record(alloc, files, name)?)
}

/// The bytes of standard input, or None if there are more than an input may have.
fn read_script<R: Read>(alloc: Global, input: &mut R) -> Result<Option<Vec<u8>>, Unread>
    ensures { IfOk result (IsReadInput (R.remaining input.old) (R.remaining input.new)) }
{
    given(read_input(alloc, input, MAX_INPUT)?)
}

/// What a reading gives: None if there is too much.
fn given(input: Input) -> Result<Option<Vec<u8>>, Unread>
    ensures { IfOk result (Gives input) }
{
    match input {
        Input::Whole(bytes) => Ok(Some(bytes)),
        Input::TooLong => Ok(None),
        Input::Device => Err(Unread::Device),
    }
}
