//! Clocks that go on from a moment.
ghost use Rattle.std.specs.Prelude.{◌≡◌};

use crate::clock::{Clock, Pause};

/// A clock whose moments are later than those of another one by so much.
#[derive(Drop)]
pub struct LaterClock<C: Clock + Drop> {
    clock: C,
    since: u64,
}

impl<C: Clock + Drop> LaterClock<C> {
    /// A clock that is later by so many milliseconds.
    pub fn new(clock: C, since: u64) -> LaterClock<C>
        ensures clock { result.clock ≡ clock }
        ensures since { result.since ≡ since }
    {
        LaterClock { clock, since }
    }
}

impl<C: Clock + Drop> Clock for LaterClock<C> {
    ghost use Rattle.rbg_serving.specs.Clocks.{TellsLater};

    ghost told = { λ later so_far. TellsLater C.told later.clock later.since so_far };

    fn now(&mut self) -> u64 {
        self.clock.now().saturating_add(self.since)
    }

    fn wait(&mut self, pause: Pause) {
        self.clock.wait(earlier_by(self.since, pause));
    }
}

/// The same pause, for a clock whose moments are earlier by so much.
fn earlier_by(since: u64, pause: Pause) -> Pause {
    match pause {
        Pause::Playing { due: Some(due) } => Pause::Playing {
            due: Some(due.saturating_sub(since)),
        },
        Pause::Playing { due: None } => Pause::Playing { due: None },
        Pause::Ending => Pause::Ending,
    }
}
