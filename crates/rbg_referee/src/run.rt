//! A run of `referee`: an input is read whole, judged, and answered.
ghost use Rattle.std.specs.Prelude.{IfOk};
ghost use Rattle.rbg_referee.specs.Runs.{IsReadersAnswer, IsRun};

use crate::answer::{Answer, answer_device, answer_input, answer_script, write_answer};
use rbg_console::{Input, MAX_INPUT, Status, read_input};
use std::alloc::{AllocError, Global};
use std::io::{Read, Write};

/// Reads an input of a description, a line `%%` and a script, referees its match, and writes the answer. Nothing is
/// written before all is read and judged.
pub fn run_referee<R: Read, W: Write>(alloc: Global, input: &mut R, output: &mut W) -> Status
    ensures { IsRun (R.remaining input.old) (R.remaining input.new)
        (W.contents output.old) (W.contents output.new) result }
{
    let answered = answer_reader(alloc, input);
    write_answer(output, answered)
}

/// The answer to all that the input has.
fn answer_reader<R: Read>(alloc: Global, input: &mut R) -> Result<Answer, AllocError>
    ensures { IfOk result (λ answer. IsReadersAnswer (R.remaining input.old) (R.remaining input.new)
        answer.text.items answer.status) }
{
    match read_input(alloc, input, MAX_INPUT)? {
        Input::Whole(bytes) => answer_input(alloc, bytes.as_slice()),
        Input::TooLong => answer_script(alloc, 0),
        Input::Device => answer_device(alloc),
    }
}
