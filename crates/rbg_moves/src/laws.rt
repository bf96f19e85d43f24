//! Laws of the moves. The contract of each function is a law; its body does nothing.
ghost use Rattle.std.specs.Prelude.{◌≡◌};
ghost use Rattle.rbg_moves.specs.Limits.{most_keeper_moves};

use crate::MAX_KEEPER_MOVES;

/// The limit is the number that the definitions state.
pub fn limit_is_as_stated()
    ensures { MAX_KEEPER_MOVES ≡ most_keeper_moves }
{}
