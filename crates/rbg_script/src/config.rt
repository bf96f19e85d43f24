//! The config of a script.

/// The maximum time for a turn, in milliseconds: one hour.
pub(crate) const MAX_TURN_MS: u64 = 3_600_000;

/// The maximum number of refusals that may be allowed.
pub(crate) const MAX_REFUSALS: u64 = 100;

/// `config <turn> <refusals> <now>`: how a match begins.
#[derive(Clone, Copy, PartialEq, Eq)]
pub struct ScriptConfig {
    /// The time for a turn, in milliseconds: 1 to 3,600,000.
    pub turn_ms: u64,
    /// How many refusals a player is allowed: 0 to 100.
    pub refusals: u32,
    /// The moment at which the match begins, in milliseconds.
    pub now: u64,
}
