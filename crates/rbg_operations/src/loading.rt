//! The game of what was read of a description, or the line of its refusal.
ghost use Rattle.std.specs.Prelude.{ℕ, List, IfOk, IfErr};
ghost use Rattle.rbg_game.specs.Loading.{IsRefused, Loads};
ghost use Rattle.rbg_macro.specs.TextLimits.{longest_text};
ghost use Rattle.rbg_operations.specs.Tasks.{IsReadOf};
ghost use Rattle.rbg_operations.specs.internal.Parts.{AnswersUnloaded};

use rbg_game::{Game, LoadError, load};
use rbg_macro::TextError;
use rbg_referee::{Answer, answer_refused};
use std::alloc::{AllocError, Global};

/// The game of a description. A description of more than `MAX_TEXT` bytes, which is None here, is refused as too long.
pub(crate) fn load_read(alloc: Global, description: &Option<Vec<u8>>) -> Result<Game, LoadError>
    ensures game { IfOk result (λ game. (text : List ℕ) →
        IsReadOf longest_text description.now text → Loads text game) }
    ensures refused { IfErr result (λ error. (text : List ℕ) →
        IsReadOf longest_text description.now text → IsRefused text error) }
{
    match description {
        Some(text) => load(alloc, text.as_slice()),
        None => Err(LoadError::Text(TextError::TooLong)),
    }
}

/// The line of a refused description.
pub(crate) fn answer_unloaded(alloc: Global, error: LoadError) -> Result<Answer, AllocError>
    ensures { IfOk result (λ answer. AnswersUnloaded error answer.text.items answer.status) }
{
    if error.is_memory() {
        Err(AllocError)
    } else {
        answer_refused(alloc, error)
    }
}
