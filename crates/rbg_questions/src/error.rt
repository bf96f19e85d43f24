//! Why sequences of moves were not counted.
ghost use Rattle.std.specs.Prelude.{◌≡◌};
ghost use Rattle.rbg_moves.specs.declared.unsettled.Unsettled.TheVariants.{Memory};
ghost use Rattle.rbg_questions.specs.declared.error.CountError.TheVariants as errors;
ghost use Rattle.rbg_questions.specs.internal.CountRefusing.{error_of_over};

use rbg_base::Memory as OutOfMemory;
use rbg_moves::{Over, Unsettled};

/// Why sequences of moves were not counted.
#[derive(Clone, Copy, Debug)]
pub enum CountError {
    /// At one of the places the keeper is to move after 1,000 of its moves in a row, or a question, the keeper's or a
    /// player's, is above the limits; or memory ran out.
    Unsettled(Unsettled),
    /// A number is above 2^64 - 1.
    TooMany,
}

impl From<Unsettled> for CountError {
    ghost from_gives = { λ unsettled error. error ≡ errors.Unsettled unsettled };

    fn from(unsettled: Unsettled) -> CountError {
        CountError::Unsettled(unsettled)
    }
}

impl From<Over> for CountError {
    ghost from_gives = { λ over error. error ≡ error_of_over over };

    fn from(over: Over) -> CountError {
        CountError::Unsettled(Unsettled::from(over))
    }
}

impl From<OutOfMemory> for CountError {
    ghost from_gives = { λ _ error. error ≡ errors.Unsettled Memory };

    fn from(_memory: OutOfMemory) -> CountError {
        CountError::Unsettled(Unsettled::Memory)
    }
}
