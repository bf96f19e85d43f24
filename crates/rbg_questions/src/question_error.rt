//! Why a question has no answer.

use rbg_base::Memory as OutOfMemory;
use rbg_moves::{Over, Unsettled};

/// Why a question has no answer. The session is as before.
#[derive(Clone, Copy)]
pub enum QuestionError {
    /// `long`: the line has more than 65,536 bytes.
    Long,
    /// `empty`: the line is empty.
    Empty,
    /// `return`: the line ends with a carriage return.
    Return,
    /// `word`: the line begins with no word of a question.
    Word,
    /// `form`: the line is no question, though it begins with the word of one.
    Form,
    /// `illegal`: the move isn't legal.
    Illegal,
    /// `start`: fewer moves were made than are to be undone.
    Start,
    /// `place`: the digits are those of no place of the game.
    NoPlace,
    /// `over`: a question about a place is above the limits.
    Over,
    /// `keeper`: the keeper is to move after 1,000 of its moves in a row.
    Keeper,
    /// `memory`: a request for memory failed.
    Memory,
}

impl From<Over> for QuestionError {
    ghost use Rattle.std.specs.Prelude.{◌≡◌};
    ghost use Rattle.rbg_questions.specs.internal.Refusing.{refusal_of_over};

    ghost from_gives = { λ over refusal. refusal ≡ refusal_of_over over };

    fn from(over: Over) -> QuestionError {
        QuestionError::from(Unsettled::from(over))
    }
}

impl From<Unsettled> for QuestionError {
    ghost use Rattle.std.specs.Prelude.{◌≡◌};
    ghost use Rattle.rbg_questions.specs.internal.Refusing.{refusal_of_unsettled};

    ghost from_gives = { λ unsettled refusal. refusal ≡ refusal_of_unsettled unsettled };

    fn from(unsettled: Unsettled) -> QuestionError {
        match unsettled {
            Unsettled::Heavy => QuestionError::Over,
            Unsettled::Endless => QuestionError::Keeper,
            Unsettled::Memory => QuestionError::Memory,
        }
    }
}

impl From<OutOfMemory> for QuestionError {
    ghost use Rattle.std.specs.Prelude.{◌≡◌};
    ghost use Rattle.rbg_questions.specs.declared.question_error.QuestionError.TheVariants.{Memory};

    ghost from_gives = { λ _ refusal. refusal ≡ Memory };

    fn from(_memory: OutOfMemory) -> QuestionError {
        QuestionError::Memory
    }
}
