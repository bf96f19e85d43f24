//! The state of play, apart from streams and the clock.

use crate::Made;
use rbg_base::Memory;
use rbg_moves::{Move, Place, Workspace};
use rbg_wire::Outcome;
use std::mem::replace;

/// The state of play. Contracts see it as `play_of` does.
pub(crate) struct Play {
    pub place: Place,
    /// The moment when the turn began.
    pub turn_began: u64,
    /// How many messages of each seat were refused, seat 1 first.
    pub refusals: Vec<u32>,
    /// The moves so far.
    pub made: Vec<Made>,
    /// The outcome, once the match has ended.
    pub outcome: Option<Outcome>,
    /// Memory that the searches of play use again. Contracts don't see it.
    pub workspace: Workspace,
}

/// Written by hand: dropping a state of play is then one call in the proofs of its owners, not a step for each part.
impl Drop for Play {
    fn drop(self) {
        let Play {
            place: _,
            turn_began: _,
            refusals: _,
            made: _,
            outcome: _,
            workspace: _,
        } = self;
    }
}

impl Play {
    ghost use Rattle.std.specs.Prelude.{◌≡◌, ◌<◌, ◌≤◌, length, All, OnErr, OnOk, true, false};
    ghost use Rattle.rbg_match.specs.Limits.{most_refusals};
    ghost use Rattle.rbg_match.specs.Play.{ended, moved, mover_of, refusals_of, refused};
    ghost use Rattle.rbg_match.specs.internal.InputOf.{IsSeatOf};
    ghost use Rattle.rbg_match.specs.internal.PlayOf.{play_of};

    /// The current player; 0 is the keeper.
    pub(crate) fn mover(&self) -> u64
        ensures { result ≡ mover_of (play_of self.now) }
    {
        u64::from(self.place.state.player())
    }

    /// Makes the mover's move, which leads to the given place.
    pub(crate) fn make(&mut self, pairs: Move, to: Place, at: u64) -> Result<(), Memory>
        ensures made { OnOk result (play_of self.new ≡ moved (play_of self.old) at pairs to) }
        ensures err { OnErr result (play_of self.new ≡ play_of self.old) }
    {
        let player = self.place.state.player();
        self.made.push(Made { player, at, pairs })?;
        let left = replace(&mut self.place, to);
        self.workspace.keep(left);
        Ok(())
    }

    /// Counts one more refused message of a seat. The match ends if the count passes the allowed number. Returns whether
    /// it does.
    pub(crate) fn refuse(&mut self, seat: usize, allowed: u32) -> bool
        requires seat { IsSeatOf (length self.old.refusals.items) seat }
        requires few { All (λ count. count ≤ most_refusals) self.old.refusals.items }
        ensures spent { result ≡ true →
            (allowed ≤ refusals_of (play_of self.old) seat)
            × (play_of self.new ≡ ended (refused (play_of self.old) seat) (Outcome.Refusals seat)) }
        ensures counted { result ≡ false →
            (refusals_of (play_of self.old) seat < allowed)
            × (play_of self.new ≡ refused (play_of self.old) seat) }
    {
        let before = self.refusals[seat - 1];
        self.refusals[seat - 1] = before + 1;
        if before < allowed {
            return false;
        }
        self.outcome = Some(Outcome::Refusals {
            player: seat as u64,
        });
        true
    }
}
