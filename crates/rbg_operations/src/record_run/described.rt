//! Refereeing with a record if a file has the description and standard input the script.
ghost use Rattle.std.specs.Prelude.{ℕ, List, IfOk};
ghost use Rattle.rbg_console.specs.Inputs.{most_input};
ghost use Rattle.rbg_macro.specs.TextLimits.{longest_text};
ghost use Rattle.rbg_operations.specs.Tasks.{IsReadOf};
ghost use Rattle.rbg_operations.specs.Tasks.FileCommand.{Referee};
ghost use Rattle.rbg_operations.specs.internal.Parts.{task_of};
ghost use Rattle.rbg_operations.specs.internal.RecordParts.{RecordsTask};

use super::filing::record_texts;
use crate::referee::answer_texts;
use crate::texts::Texts;
use rbg_console::Files;
use rbg_referee::Answer;
use rbg_script::TwoTexts;
use std::alloc::{AllocError, Global};

/// The answer to what was read of a description and a script. What is longer than it may be has no match.
pub(super) fn record_read<F: Files>(
    alloc: Global,
    texts: &Texts,
    target: &str,
    files: &mut F,
) -> Result<Answer, AllocError>
    ensures { IfOk result (λ answer. (description script : List ℕ) →
        IsReadOf longest_text texts.now.description description →
        IsReadOf most_input texts.now.told script →
        RecordsTask F.knows_new (F.told files.old target.now) (F.told files.new target.now)
        (task_of Referee description script) answer.text.items answer.status) }
{
    match &texts.description {
        Some(description) => match &texts.told {
            Some(script) => {
                let both = TwoTexts {
                    description: description.as_slice(),
                    script: script.as_slice(),
                };
                record_texts(alloc, target, files, both)
            }
            None => answer_texts(alloc, texts),
        },
        None => answer_texts(alloc, texts),
    }
}
