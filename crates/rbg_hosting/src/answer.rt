//! What is answered to descriptions and a script: a text that is printed, and the status with which the program ends.
ghost use Rattle.std.specs.Prelude.{IfOk};
ghost use Rattle.rbg_hosting.specs.Answers.{AnswersFault, IsHallAnswer};
ghost use Rattle.rbg_hosting.specs.Tables.{texts_of};

use crate::HostingError;
use crate::hearing::hall_texts;
use rbg_console::Status;
use rbg_referee::{Answer, answer_fault, answer_script};
use std::alloc::{AllocError, Global};

/// Answers descriptions and a script: with the printed lines of the hall that hears it, or with the line of what is wrong.
pub fn answer_hall(
    alloc: Global,
    descriptions: &[Vec<u8>],
    script: &[u8],
) -> Result<Answer, AllocError>
    ensures { IfOk result (λ answer.
        IsHallAnswer (texts_of descriptions.now) script.now answer.text.items answer.status) }
{
    match hall_texts(alloc, descriptions, script) {
        Ok(lines) => Ok(Answer {
            text: lines,
            status: Status::Success,
        }),
        Err(error) => answer_hosting(alloc, error),
    }
}

/// The line of what is wrong.
fn answer_hosting(alloc: Global, error: HostingError) -> Result<Answer, AllocError>
    ensures { IfOk result (λ answer. AnswersFault error answer.text.items answer.status) }
{
    match error {
        HostingError::Tables => answer_script(alloc, 0),
        HostingError::Input(error) => answer_fault(alloc, error),
    }
}
