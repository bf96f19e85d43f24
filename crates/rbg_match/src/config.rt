//! The config of a match.

/// The maximum time for a turn, in milliseconds: one hour.
pub const MAX_TURN_MS: u64 = 3_600_000;

/// The latest moment that is counted. It leaves room for the longest turn, so that each due moment is a `u64`.
pub const LATEST_MOMENT: u64 = u64::MAX - MAX_TURN_MS;

/// The maximum number of refused messages that may be allowed to a seat.
pub const MAX_REFUSALS: u32 = 100;

/// The time for a turn, and how many refused messages a seat is allowed.
#[derive(Clone, Copy, PartialEq, Eq)]
pub struct Config {
    /// The time for a turn, in milliseconds: 1 to `MAX_TURN_MS`.
    pub turn_ms: u64,
    /// How many messages of a seat may be refused before one more ends the match: 0 to `MAX_REFUSALS`.
    pub refusals: u32,
}

impl Config {
    ghost use Rattle.std.specs.Prelude.{IsTrue, ◌↔◌};
    ghost use Rattle.rbg_match.specs.Config.{IsWithinLimits};

    /// Whether both numbers are within their limits.
    pub fn is_within_limits(self) -> bool
        ensures { IsTrue result ↔ IsWithinLimits self }
    {
        1 <= self.turn_ms && self.turn_ms <= MAX_TURN_MS && self.refusals <= MAX_REFUSALS
    }
}
