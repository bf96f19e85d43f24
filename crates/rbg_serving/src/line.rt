//! Lines to players.
ghost use Rattle.std.specs.Prelude.{◌≡◌, ℕ, length};
ghost use Rattle.rbg_serving.specs.Told.{Told, Tells};
ghost use Rattle.rbg_serving.specs.Answers.{FitsPoll, FitsPut, after_poll, after_put};

use crate::{Polled, Put};

/// A line to a player: it gives the player's bytes and takes those for the player. A call waits a few milliseconds at most.
pub trait Line {
    /// Whether this may be all that the line has told so far. The failures are those of `failure_count`. A line that
    /// keeps no record, as one over a socket, may have told anything: `λ _ _. Unit {0}`.
    ghost told: { Self → Told → Type 0 };

    /// How often the line has failed.
    ghost failure_count: { Self → ℕ };

    /// Asks for bytes, which are written to the start of the buffer. At `u64::MAX` failures a line answers `Ended` in
    /// place of a further `Failed`.
    fn poll(&mut self, buffer: &mut [u8]) -> Polled
        ensures fits { FitsPoll result (length buffer.new) }
        ensures told { (so_far : Told) →
            Tells told failure_count self.old so_far →
            Tells told failure_count self.new (after_poll so_far result buffer.new) };

    /// Offers bytes. The line takes some of the first ones, or none. At `u64::MAX` failures a line answers `Took(0)` in
    /// place of a further `Failed`.
    fn put(&mut self, bytes: &[u8]) -> Put
        ensures fits { FitsPut result (length bytes.now) }
        ensures told { (so_far : Told) →
            Tells told failure_count self.old so_far →
            Tells told failure_count self.new (after_put so_far result bytes.now) };

    /// How often the line has failed.
    fn failures(&self) -> u64
        ensures { result ≡ failure_count self.now };
}
