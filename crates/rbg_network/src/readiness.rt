//! What is known of one socket between two waits.

/// How often in a row a wait ends at once for what a player sends, from one move that it is sent to the next.
const BURST: u32 = 16;

/// Players whose burst is used up are heard together, once in so many microseconds.
const REST_US: u64 = 10_000;

/// How many microseconds a connection may take nothing of what is left for it after the end.
const STALL_US: u64 = 10_000_000;

/// What is known of one socket between two waits. Moments are in microseconds.
#[derive(Clone, Copy)]
pub(crate) struct Readiness {
    /// Whether it may give something: bytes, its end, a connection.
    readable: bool,
    /// Whether it may take bytes.
    writable: bool,
    /// Whether the other end has closed it, at least for writing.
    closed: bool,
    /// Whether a wait has something to end for, since none has ended for it.
    fresh: bool,
    /// How often a wait still ends at once. None for a socket that may always be heard.
    burst: Option<u32>,
    /// Until when no wait ends for it.
    rests_until: u64,
    /// Whether it isn't heard until the next wait is over.
    muted: bool,
    /// Since when it takes nothing after the end.
    blocked_since: Option<u64>,
    /// Whether it took nothing for so long that it counts as failed.
    stalled: bool,
}

impl Readiness {
    /// A socket that may always be heard.
    pub(crate) fn new() -> Readiness {
        Readiness {
            readable: false,
            writable: true,
            closed: false,
            fresh: false,
            burst: None,
            rests_until: 0,
            muted: false,
            blocked_since: None,
            stalled: false,
        }
    }

    /// The connection of a player. One that sends without an end is heard a hundred times a second.
    pub(crate) fn of_player() -> Readiness {
        Readiness {
            burst: Some(BURST),
            ..Readiness::new()
        }
    }

    /// The system reports this at a moment. What was offered already, and wasn't taken, isn't fresh.
    pub(crate) fn reported(
        self,
        now: u64,
        readable: bool,
        writable: bool,
        closed: bool,
    ) -> Readiness {
        let gives = readable || closed;
        let news = (gives && !self.readable)
            || (closed && !self.closed)
            || (writable && !self.writable);
        let reported = Readiness {
            readable: self.readable || gives,
            writable: self.writable || writable,
            closed: self.closed || closed,
            fresh: self.fresh || news,
            ..self
        };
        if news && !self.fresh && self.is_exhausted() {
            return reported.rested(now);
        }
        reported
    }

    /// Whether its burst is used up.
    fn is_exhausted(self) -> bool {
        self.burst == Some(0)
    }

    /// It rests until all that rest are heard.
    fn rested(self, now: u64) -> Readiness {
        let periods = now / REST_US;
        Readiness {
            rests_until: periods.saturating_add(1).saturating_mul(REST_US),
            ..self
        }
    }

    /// What it may give counts as fresh again.
    pub(crate) fn offered_again(self) -> Readiness {
        Readiness {
            fresh: self.readable,
            ..self
        }
    }

    /// Whether a wait ends for it at this moment.
    pub(crate) fn ends_wait(self, now: u64) -> bool {
        self.fresh && self.rests_until <= now
    }

    /// Whether it gives something at the end of a wait at this moment. Where the wait has lasted as long as it was asked
    /// to, nothing rests.
    pub(crate) fn speaks(self, now: u64, in_full: bool) -> bool {
        self.fresh && self.readable && (in_full || self.rests_until <= now)
    }

    /// When a wait ends for it, if it rests until then.
    pub(crate) fn wakes_at(self) -> Option<u64> {
        if self.fresh {
            return Some(self.rests_until);
        }
        None
    }

    /// A wait is over at this moment.
    pub(crate) fn waited(self, now: u64, in_full: bool) -> Readiness {
        if self.ends_wait(now) || (in_full && self.fresh) {
            return self.heard(now);
        }
        Readiness {
            muted: now < self.rests_until,
            ..self
        }
    }

    /// A wait has ended for it at this moment.
    fn heard(self, now: u64) -> Readiness {
        let heard = Readiness {
            fresh: false,
            muted: false,
            ..self
        };
        match self.burst {
            Some(0) => heard.rested(now),
            Some(left) => Readiness {
                burst: Some(left.saturating_sub(1)),
                ..heard
            },
            None => heard,
        }
    }

    /// Whether a read may be tried.
    pub(crate) fn may_give(self) -> bool {
        self.readable && !self.muted
    }

    /// It gave something. There is more if the buffer is full; if it is not, only the end may be left.
    pub(crate) fn gave(self, full: bool) -> Readiness {
        let more = full || self.closed;
        Readiness {
            readable: more,
            fresh: more,
            ..self
        }
    }

    /// It had nothing to give.
    pub(crate) fn gave_nothing(self) -> Readiness {
        Readiness {
            readable: false,
            ..self
        }
    }

    /// Whether a write may be tried.
    pub(crate) fn may_take(self) -> bool {
        self.writable
    }

    /// It took bytes. A move among them begins a new burst.
    pub(crate) fn took(self, bytes: &[u8]) -> Readiness {
        let burst = match self.burst {
            Some(_) if bytes.contains(&b'M') => Some(BURST),
            burst => burst,
        };
        Readiness {
            burst,
            blocked_since: None,
            ..self
        }
    }

    /// It took nothing.
    pub(crate) fn took_nothing(self) -> Readiness {
        Readiness {
            writable: false,
            ..self
        }
    }

    /// After the end a wait begins at this moment.
    pub(crate) fn ending(self, now: u64) -> Readiness {
        if self.writable {
            return self;
        }
        let since = self.blocked_since.unwrap_or(now);
        Readiness {
            blocked_since: Some(since),
            stalled: self.stalled || since.saturating_add(STALL_US) <= now,
            ..self
        }
    }

    /// Whether it took nothing for so long after the end that it counts as failed.
    pub(crate) fn has_stalled(self) -> bool {
        self.stalled
    }

    /// Whether the other end has closed it.
    pub(crate) fn is_closed(self) -> bool {
        self.closed
    }
}
