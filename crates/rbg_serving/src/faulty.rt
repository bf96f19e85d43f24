//! Lines with a fault.
ghost use Rattle.std.specs.Prelude.{◌≡◌, ◌≢◌, ◌≤◌, ◌+◌, ◌==◌, length, min};
ghost use Rattle.rbg_serving.specs.Answers.{FitsPoll, FitsPut, after_poll, after_put};
ghost use Rattle.rbg_serving.specs.FaultyLines.{PassesOn, PollsOn, PutsOn, counted_poll, counted_put};
ghost use Rattle.rbg_serving.specs.Told.{Told, Tells};

use crate::{Line, Polled, Put};

/// A line that fails once, at its call of that number, and passes every other call on. Polls and puts are calls, and are
/// numbered from 1.
#[derive(Drop)]
pub struct Faulty<L> {
    line: L,
    /// The number of the call that fails. 0 if there is none.
    call: u64,
    /// How many calls have come. Those after the one that fails aren't counted.
    calls: u64,
    failures: u64,
    ghost counted: { calls ≤ call },
}

impl<L: Line> Faulty<L> {
    /// The line with a fault at the call of this number. With 0 it has none.
    pub fn new(line: L, call: u64) -> Faulty<L>
        ensures line { result.line ≡ line }
        ensures call { result.call ≡ call }
        ensures calls { result.calls ≡ 0 }
        ensures failures { result.failures ≡ L.failure_count line }
        ensures told { (so_far : Told) →
            Tells L.told L.failure_count line so_far → ⟦<Faulty<L> as Line>⟧.told result so_far }
    {
        let failures = line.failures();
        Faulty {
            line,
            call,
            calls: 0,
            failures,
        }
    }

    /// The line that the calls are passed on to.
    pub fn line(&self) -> &L
        ensures line { result.now ≡ self.now.line }
        ensures told { (so_far : Told) →
            ⟦<Faulty<L> as Line>⟧.told self.now so_far →
            PassesOn L.told L.failure_count self.now.call self.now.calls result.now so_far }
    {
        &self.line
    }
}

/// Counts a call up to the one that fails. Returns whether this is it.
fn is_faulty(call: u64, calls: &mut u64) -> bool
    requires { calls.old ≤ call }
    ensures counted { calls.new ≡ min call (calls.old + 1) }
    ensures fails { result ≡ (calls.old + 1 == call) }
{
    if *calls == call {
        return false;
    }
    *calls += 1;
    *calls == call
}

impl<L: Line> Line for Faulty<L> {
    ghost told = { λ faulty so_far. PassesOn L.told L.failure_count faulty.call faulty.calls faulty.line so_far };

    ghost failure_count = { λ faulty. faulty.failures };

    fn poll(&mut self, buffer: &mut [u8]) -> Polled
        ensures fits { FitsPoll result (length buffer.new) }
        ensures told { (so_far : Told) →
            Tells ⟦<Faulty<L> as Line>⟧.told ⟦<Faulty<L> as Line>⟧.failure_count self.old so_far →
            Tells ⟦<Faulty<L> as Line>⟧.told ⟦<Faulty<L> as Line>⟧.failure_count self.new
            (after_poll so_far result buffer.new) }
        ensures call { self.new.call ≡ self.old.call }
        ensures calls { self.new.calls ≡ min self.old.call (self.old.calls + 1) }
        ensures fails { self.old.calls + 1 ≡ self.old.call →
            (result ≡ counted_poll self.old.failures Polled.Failed)
            × (self.new.line ≡ self.old.line) }
        ensures passes_on { self.old.calls + 1 ≢ self.old.call →
            PollsOn L.told L.failure_count self.old.failures self.old.line self.new.line result
            buffer.new }
    {
        if !is_faulty(self.call, &mut self.calls) {
            let polled = self.line.poll(buffer);
            if polled != Polled::Failed {
                return polled;
            }
        }
        if self.failures == u64::MAX {
            return Polled::Ended;
        }
        self.failures += 1;
        Polled::Failed
    }

    fn put(&mut self, bytes: &[u8]) -> Put
        ensures fits { FitsPut result (length bytes.now) }
        ensures told { (so_far : Told) →
            Tells ⟦<Faulty<L> as Line>⟧.told ⟦<Faulty<L> as Line>⟧.failure_count self.old so_far →
            Tells ⟦<Faulty<L> as Line>⟧.told ⟦<Faulty<L> as Line>⟧.failure_count self.new
            (after_put so_far result bytes.now) }
        ensures call { self.new.call ≡ self.old.call }
        ensures calls { self.new.calls ≡ min self.old.call (self.old.calls + 1) }
        ensures fails { self.old.calls + 1 ≡ self.old.call →
            (result ≡ counted_put self.old.failures Put.Failed) × (self.new.line ≡ self.old.line) }
        ensures passes_on { self.old.calls + 1 ≢ self.old.call →
            PutsOn L.told L.failure_count self.old.failures self.old.line self.new.line result
            bytes.now }
    {
        if !is_faulty(self.call, &mut self.calls) {
            let put = self.line.put(bytes);
            if put != Put::Failed {
                return put;
            }
        }
        if self.failures == u64::MAX {
            return Put::Took(0);
        }
        self.failures += 1;
        Put::Failed
    }

    fn failures(&self) -> u64 {
        self.failures
    }
}
