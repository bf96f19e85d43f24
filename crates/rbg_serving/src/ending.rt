//! Whether all is taken.
ghost use Rattle.std.specs.Prelude.{◌≡◌, ◌<◌, ◌≤◌, ◌↔◌, ℕ, true, length, slice_index_or, IsTrue};
ghost use Rattle.rbg_serving.specs.internal.Lines.{absent, HasAll};

use crate::engine::Engine;
use crate::line_state::LineState;

/// Whether each line took all that is queued for it.
pub(crate) fn is_whole<E: Engine>(states: &[LineState], outbox: &E::Outbox) -> bool
    requires { length states.now ≤ length (E.queued outbox.now) }
    ensures { IsTrue result ↔ ((index : ℕ) →
        index < length states.now →
        HasAll (E.queued outbox.now) states.now index) }
{
    for (index, one) in states.iter().enumerate() {
        if one.taken != E::bytes(outbox, index + 1).len() {
            return false;
        }
    }
    true
}

/// Whether each live line took all that is queued for it.
pub(crate) fn live_have_all<E: Engine>(states: &[LineState], outbox: &E::Outbox) -> bool
    requires { length states.now ≤ length (E.queued outbox.now) }
    ensures { IsTrue result ↔ ((index : ℕ) →
        index < length states.now →
        (slice_index_or states.now index absent).live ≡ true →
        HasAll (E.queued outbox.now) states.now index) }
{
    for (index, one) in states.iter().enumerate() {
        if one.live && one.taken != E::bytes(outbox, index + 1).len() {
            return false;
        }
    }
    true
}
