//! What is met in matches besides how many of them end in which way.

use crate::chosen::Chosen;
use crate::tally::{Ending, EndingTally, Played};
use rbg_base::Memory;
use std::alloc::Global;

/// What was met in matches.
#[derive(Drop)]
pub struct Survey {
    /// The least number of moves of a match, and the greatest one.
    pub least: u64,
    pub greatest: u64,
    /// What was chosen in all of them.
    pub chosen: Chosen,
    /// The seed of the first match of each way of ending, in the order in which the ways were first met.
    pub seeds: Vec<u64>,
}

impl Survey {
    /// Before the first match.
    pub(crate) fn new(alloc: Global) -> Survey {
        Survey {
            least: u64::MAX,
            greatest: 0,
            chosen: Chosen::counted(),
            seeds: Vec::new(alloc),
        }
    }

    /// Adds a match of this seed, after those of these tallies.
    pub(crate) fn add(
        &mut self,
        seed: u64,
        played: &Played,
        tallies: &[EndingTally],
    ) -> Result<(), Memory> {
        self.least = self.least.min(played.moves);
        self.greatest = self.greatest.max(played.moves);
        if !has_ending(&played.ending, tallies) {
            self.seeds.push(seed)?;
        }
        Ok(())
    }
}

/// Whether one of the tallies is that of an ending.
fn has_ending(ending: &Ending, tallies: &[EndingTally]) -> bool {
    for tally in tallies {
        if is_same(&tally.ending, ending) {
            return true;
        }
    }
    false
}

fn is_same(one: &Ending, other: &Ending) -> bool {
    match one {
        Ending::Finished { scores } => is_finished_so(other, scores.as_slice()),
        Ending::Stopped => matches!(other, Ending::Stopped),
    }
}

fn is_finished_so(ending: &Ending, wanted: &[u64]) -> bool {
    match ending {
        Ending::Finished { scores } => wanted == scores.as_slice(),
        Ending::Stopped => false,
    }
}
