//! A law of moves. The function's contract is the law; its body does nothing.
ghost use Rattle.std.specs.Prelude.{◌≡◌};
ghost use Rattle.rbg_base.specs.Move.{most_pairs};

use crate::MAX_PAIRS;

/// The limit is the number that the definitions state.
pub fn limits_are_as_stated()
    ensures { MAX_PAIRS ≡ most_pairs }
{}
