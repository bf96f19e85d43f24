//! What a call of `serve` works on.
ghost use Rattle.std.specs.Prelude.{◌≡◌};

use crate::engine::Engine;
use crate::line_state::LineState;
use crate::{Clock, Line};

/// What a call of `serve` works on: the lines and their states, what is served, what is queued for the lines, and the
/// clock.
#[derive(Drop)]
pub(crate) struct Call<'a, L: Line, E: Engine, C: Clock> {
    pub lines: &'a mut [L],
    pub states: &'a mut [LineState],
    pub engine: &'a mut E,
    pub outbox: &'a mut E::Outbox,
    pub clock: &'a mut C,
}

impl<'a, L: Line, E: Engine, C: Clock> Call<'a, L, E, C> {
    /// A call on these.
    pub(crate) fn new(
        lines: &'a mut [L],
        states: &'a mut [LineState],
        engine: &'a mut E,
        outbox: &'a mut E::Outbox,
        clock: &'a mut C,
    ) -> Self
        ensures lines { (result.lines.ghost_name ≡ lines.entry.ghost_name)
            × (result.lines.now ≡ lines.old) }
        ensures states { (result.states.ghost_name ≡ states.entry.ghost_name)
            × (result.states.now ≡ states.old) }
        ensures engine { (result.engine.ghost_name ≡ engine.entry.ghost_name)
            × (result.engine.now ≡ engine.old) }
        ensures outbox { (result.outbox.ghost_name ≡ outbox.entry.ghost_name)
            × (result.outbox.now ≡ outbox.old) }
        ensures clock { (result.clock.ghost_name ≡ clock.entry.ghost_name)
            × (result.clock.now ≡ clock.old) }
    {
        Call {
            lines,
            states,
            engine,
            outbox,
            clock,
        }
    }
}
