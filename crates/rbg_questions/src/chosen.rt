//! What is chosen by chance, and from how much.

use rbg_base::{Memory, Pair};
use rbg_moves::Choice;
use rbg_wire::write_pairs;
use std::alloc::Global;

/// What was chosen by chance.
#[derive(Drop)]
pub struct Chosen {
    /// How many moves there were to choose from, at all places together where they were listed.
    pub choices: u64,
    /// A line of pairs for each move that was chosen, where that is wanted.
    pub lines: Option<Vec<u8>>,
}

impl Chosen {
    /// Nothing yet, and no lines are wanted.
    pub fn counted() -> Chosen {
        Chosen {
            choices: 0,
            lines: None,
        }
    }

    /// Nothing yet, and lines are wanted.
    pub fn written(alloc: Global) -> Chosen {
        Chosen {
            choices: 0,
            lines: Some(Vec::new(alloc)),
        }
    }

    /// Adds the move of these pairs, which was chosen so.
    pub(crate) fn add(&mut self, choice: Choice, pairs: &[Pair]) -> Result<(), Memory> {
        if let Choice::Listed(count) = choice {
            self.choices = self.choices.saturating_add(count as u64);
        }
        match &mut self.lines {
            Some(lines) => {
                write_pairs(pairs, lines)?;
                lines.push(b'\n')?;
                Ok(())
            }
            None => Ok(()),
        }
    }
}
