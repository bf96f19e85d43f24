//! Refereeing with a record if standard input holds the description, a line `%%` and the script.
ghost use Rattle.std.specs.Prelude.{IfOk};
ghost use Rattle.rbg_operations.specs.internal.RecordParts.{RecordsInput};

use super::filing::record_texts;
use rbg_console::Files;
use rbg_referee::{Answer, answer_script};
use rbg_script::cut_at_mark;
use std::alloc::{AllocError, Global};

/// The answer to an input.
pub(super) fn record_marked<F: Files>(
    alloc: Global,
    target: &str,
    files: &mut F,
    input: &[u8],
) -> Result<Answer, AllocError>
    ensures { IfOk result (λ answer. RecordsInput F.knows_new (F.told files.old target.now)
        (F.told files.new target.now) input.now answer.text.items answer.status) }
{
    match cut_at_mark(input) {
        Some(texts) => record_texts(alloc, target, files, texts),
        None => answer_script(alloc, 0),
    }
}
