//! The clock of the system. It goes on by what was waited, and stands while the referee works.

use crate::moments::{mark_after, moment_at, over_at};
use crate::watch::Watch;
use rbg_serving::{Clock, Pause};
use std::rc::Rc;

/// The most microseconds that a wait takes.
const MOST_US: u64 = 1_000_000;

/// The time that was waited for players since the clock began. What the referee needs for its own work isn't counted.
#[derive(Drop)]
pub struct SystemClock<'a> {
    watch: Rc<Watch<'a>>,
    /// The microseconds that were waited.
    mark: u64,
    /// The moment.
    moment: u64,
}

impl<'a> SystemClock<'a> {
    /// A clock that begins with 0. What came before then is heard at once.
    pub(crate) fn new(watch: Rc<Watch<'a>>) -> SystemClock<'a> {
        watch.offer_again();
        SystemClock {
            watch,
            mark: 0,
            moment: 0,
        }
    }

    /// Waits, at most until this mark. Returns whether somebody spoke.
    fn wait_until(&mut self, end: u64) -> bool {
        let waited = self.watch.wait(end.saturating_sub(self.mark));
        self.mark = mark_after(self.mark, waited.lasted, end);
        waited.spoke
    }

    /// Waits, at most until the due moment is over.
    fn wait_for(&mut self, due: u64) {
        let before = self.mark;
        let over = u64::try_from(over_at(due)).unwrap_or(u64::MAX);
        let spoke = self.wait_until(over.min(self.latest()));
        self.moment = moment_at(due, before, self.mark, spoke);
    }

    /// Waits for as long as a wait may take.
    fn wait_long(&mut self) {
        let _spoke = self.wait_until(self.latest());
        self.moment = self.mark / 1_000;
    }

    /// The mark until which a wait that begins now may last.
    fn latest(&self) -> u64 {
        self.mark.saturating_add(MOST_US)
    }
}

impl Clock for SystemClock<'_> {
    ghost told = { λ _ _. Unit {0} };

    fn now(&mut self) -> u64 {
        self.moment
    }

    fn wait(&mut self, pause: Pause) {
        match pause {
            Pause::Playing { due: Some(due) } => self.wait_for(due),
            Pause::Playing { due: None } => self.wait_long(),
            Pause::Ending => {
                self.watch.begin_ending();
                self.wait_long();
            }
        }
    }
}
