//! The answer to an input: a text that is printed, and the status with which the program ends.
ghost use Rattle.std.specs.Prelude.{◌≡◌, ◌++◌, IfOk, codes, decimal};
ghost use Rattle.rbg_referee.specs.Answers.{IsAnswer, refused_line, script_line};
ghost use Rattle.rbg_referee.specs.Runs.{WritesAnswer, device_line};
ghost use Rattle.rbg_referee.specs.Faults.{AnswersFault};

use crate::RefereeingError;
use crate::printed_match::referee_input;
use rbg_console::{Refusal, Status, write_text};
use rbg_game::LoadError;
use std::alloc::{AllocError, Global};
use std::io::Write;

/// A text that is printed, and the status with which the program ends.
#[derive(Drop)]
pub struct Answer {
    pub text: Vec<u8>,
    pub status: Status,
}

/// Answers an input: with the lines of its match, or with the line of its fault.
pub fn answer_input(alloc: Global, input: &[u8]) -> Result<Answer, AllocError>
    ensures { IfOk result (λ answer. IsAnswer input.now answer.text.items answer.status) }
{
    match referee_input(alloc, input) {
        Ok(lines) => Ok(Answer {
            text: lines,
            status: Status::Success,
        }),
        Err(error) => answer_fault(alloc, error),
    }
}

/// The line of the fault because of which a match is not refereed.
pub fn answer_fault(alloc: Global, error: RefereeingError) -> Result<Answer, AllocError>
    ensures { IfOk result (λ answer. AnswersFault error answer.text.items answer.status) }
{
    match error {
        RefereeingError::Load(error) => answer_refused(alloc, error),
        RefereeingError::Script(number) => answer_script(alloc, number),
        RefereeingError::Memory => Err(AllocError),
    }
}

/// `refused <refusal>`
pub fn answer_refused(alloc: Global, error: LoadError) -> Result<Answer, AllocError>
    ensures text { IfOk result (λ answer. answer.text.items ≡ refused_line error) }
    ensures status { IfOk result (λ answer. answer.status ≡ Status.Refused) }
{
    let refusal = Refusal(error);
    let line = format!(in alloc; "refused {refusal}\n")?;
    Ok(Answer {
        text: line.into_bytes(),
        status: Status::Refused,
    })
}

/// `script <number>`
pub fn answer_script(alloc: Global, number: usize) -> Result<Answer, AllocError>
    ensures text { IfOk result (λ answer. answer.text.items ≡ script_line number) }
    ensures status { IfOk result (λ answer. answer.status ≡ Status.BadInput) }
{
    answer_line(alloc, "script ", number)
}

/// A word and the number of the line that has a fault.
pub fn answer_line(alloc: Global, word: &str, number: usize) -> Result<Answer, AllocError>
    ensures text { IfOk result (λ answer.
        answer.text.items ≡ word.now ++ (decimal number ++ codes "\n")) }
    ensures status { IfOk result (λ answer. answer.status ≡ Status.BadInput) }
{
    let line = format!(in alloc; "{word}{number}\n")?;
    Ok(Answer {
        text: line.into_bytes(),
        status: Status::BadInput,
    })
}

/// `device`, for a file or an input that can't be read.
pub fn answer_device(alloc: Global) -> Result<Answer, AllocError>
    ensures text { IfOk result (λ answer. answer.text.items ≡ device_line) }
    ensures status { IfOk result (λ answer. answer.status ≡ Status.Device) }
{
    Ok(Answer {
        text: b"device\n".to_vec(alloc)?,
        status: Status::Device,
    })
}

/// Writes an answer, or the line `memory` if memory ran out.
pub fn write_answer<W: Write>(output: &mut W, answered: Result<Answer, AllocError>) -> Status
    ensures { WritesAnswer answered (W.contents output.old) (W.contents output.new) result }
{
    match answered {
        Ok(answer) => write_text(output, answer.text.as_slice(), answer.status),
        Err(_) => write_text(output, b"memory\n", Status::Memory),
    }
}
