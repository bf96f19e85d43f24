//! Laws of the messages that a player receives. The contract of each function is a law; its body does nothing.
ghost use Rattle.std.specs.Prelude.{◌≡◌};
ghost use Rattle.rbg_player.specs.Limits.{message_limit, most_choices};
ghost use Rattle.rbg_player.specs.Laws.{FaultsAreNotHeard};

use crate::{MAX_CHOICES, MAX_MESSAGE_BYTES};

/// The limits are the numbers that the definitions state.
pub fn limits_are_as_stated()
    ensures message { MAX_MESSAGE_BYTES ≡ message_limit }
    ensures choices { MAX_CHOICES ≡ most_choices }
{}

/// A message that has a fault is not accepted.
pub fn faults_are_not_heard()
    ensures { FaultsAreNotHeard }
{}
