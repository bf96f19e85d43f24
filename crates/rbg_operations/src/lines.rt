//! The lines of answers about a record.
ghost use Rattle.std.specs.Prelude.{◌≡◌, IfOk};
ghost use Rattle.rbg_operations.specs.Answers.{bad_line, form_line, good_line, over_line};
ghost use Rattle.rbg_operations.specs.internal.Parts.{AnswersChecked, AnswersRecordError};

use rbg_console::Status;
use rbg_record::{Checked, RecordError};
use rbg_referee::{Answer, answer_line};
use std::alloc::{AllocError, Global};

/// `good`
fn answer_good(alloc: Global) -> Result<Answer, AllocError>
    ensures text { IfOk result (λ answer. answer.text.items ≡ good_line) }
    ensures status { IfOk result (λ answer. answer.status ≡ Status.Success) }
{
    Ok(Answer {
        text: b"good\n".to_vec(alloc)?,
        status: Status::Success,
    })
}

/// `bad <line>`
fn answer_bad(alloc: Global, line: usize) -> Result<Answer, AllocError>
    ensures text { IfOk result (λ answer. answer.text.items ≡ bad_line line) }
    ensures status { IfOk result (λ answer. answer.status ≡ Status.BadInput) }
{
    answer_line(alloc, "bad ", line)
}

/// `form <line>`
pub fn answer_form(alloc: Global, line: usize) -> Result<Answer, AllocError>
    ensures text { IfOk result (λ answer. answer.text.items ≡ form_line line) }
    ensures status { IfOk result (λ answer. answer.status ≡ Status.BadInput) }
{
    answer_line(alloc, "form ", line)
}

/// `over <line>`
fn answer_over(alloc: Global, line: usize) -> Result<Answer, AllocError>
    ensures text { IfOk result (λ answer. answer.text.items ≡ over_line line) }
    ensures status { IfOk result (λ answer. answer.status ≡ Status.BadInput) }
{
    answer_line(alloc, "over ", line)
}

/// The line of a record's fault.
pub(crate) fn answer_record_fault(alloc: Global, error: RecordError) -> Result<Answer, AllocError>
    ensures { IfOk result (λ answer. AnswersRecordError error answer.text.items answer.status) }
{
    match error {
        RecordError::Form { line } => answer_form(alloc, line),
        RecordError::Over { line } => answer_over(alloc, line),
        RecordError::Memory => Err(AllocError),
    }
}

/// The line of the verdict on a record.
pub(crate) fn answer_checked(
    alloc: Global,
    checked: Result<Checked, RecordError>,
) -> Result<Answer, AllocError>
    ensures { IfOk result (λ answer. AnswersChecked checked answer.text.items answer.status) }
{
    match checked {
        Ok(Checked::Good) => answer_good(alloc),
        Ok(Checked::Bad { line }) => answer_bad(alloc, line),
        Err(error) => answer_record_fault(alloc, error),
    }
}
