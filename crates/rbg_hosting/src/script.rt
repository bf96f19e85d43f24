//! The command `script`.
ghost use Rattle.std.specs.Prelude.{◌≡◌, IfOk};
ghost use Rattle.rbg_operations.specs.Answers.{form_line};
ghost use Rattle.rbg_hosting.specs.Runs.{IsFilesScript, IsScriptAnswer, IsScriptRun};

use rbg_console::{Files, Input, Status, read_record, write_text};
use rbg_record::{ScriptingError, script_of_record};
use rbg_referee::{Answer, answer_device};
use std::alloc::{AllocError, Global};
use std::io::Write;

/// Prints a script of the record that a file has.
pub fn run_script<F: Files, W: Write>(
    alloc: Global,
    file: &str,
    files: &mut F,
    output: &mut W,
) -> Status
    ensures { IsScriptRun (F.told files.old file.now) (W.contents output.old) (W.contents output.new) result }
{
    match answer_file(alloc, file, files) {
        Ok(answer) => write_text(output, answer.text.as_slice(), answer.status),
        Err(_) => write_text(output, b"memory\n", Status::Memory),
    }
}

/// The answer to a file.
fn answer_file<F: Files>(alloc: Global, file: &str, files: &mut F) -> Result<Answer, AllocError>
    ensures { IfOk result (λ answer. IsFilesScript (F.told files.old file.now) answer.text.items answer.status) }
{
    match read_record(alloc, files, file)? {
        Input::Whole(bytes) => answer_record(alloc, bytes.as_slice()),
        Input::TooLong => answer_form(alloc, 0),
        Input::Device => answer_device(alloc),
    }
}

/// The answer to the bytes of a record.
fn answer_record(alloc: Global, bytes: &[u8]) -> Result<Answer, AllocError>
    ensures { IfOk result (λ answer. IsScriptAnswer bytes.now answer.text.items answer.status) }
{
    match script_of_record(alloc, bytes) {
        Ok(text) => Ok(Answer {
            text,
            status: Status::Success,
        }),
        Err(ScriptingError::Form(line)) => answer_form(alloc, line),
        Err(ScriptingError::Memory) => Err(AllocError),
    }
}

/// `form <line>`
fn answer_form(alloc: Global, line: usize) -> Result<Answer, AllocError>
    ensures text { IfOk result (λ answer. answer.text.items ≡ form_line line) }
    ensures status { IfOk result (λ answer. answer.status ≡ Status.BadInput) }
{
    let text = format!(in alloc; "form {line}\n")?;
    Ok(Answer {
        text: text.into_bytes(),
        status: Status::BadInput,
    })
}
