//! Why a game isn't compared to its end, and how much was compared.
use crate::tests::meaning::{Moves, Next};
use rbg_base::Memory;
use rbg_search::Over;
use std::alloc::AllocFailed;

/// Why a game isn't compared to its end.
#[derive(Clone, Copy, Debug, Drop)]
pub(crate) enum Odd {
    /// The rules have too many words.
    TooMany,
    /// A search is above its limits though the answer is known: a pattern that a short word shows to be valid may begin
    /// with words that have no end.
    Limits,
    Memory,
    /// The game isn't loaded as it was written.
    Load,
    /// An answer of that call isn't the slow one.
    Reach,
    Pattern,
    /// A search by leaps doesn't answer or give up as one that goes step by step does.
    Order,
    Try,
    Find,
    List,
}

impl From<Memory> for Odd {
    fn from(_error: Memory) -> Odd {
        Odd::Memory
    }
}

impl<T: Drop> From<AllocFailed<T>> for Odd {
    fn from(_error: AllocFailed<T>) -> Odd {
        Odd::Memory
    }
}

/// Ends the comparison where something isn't so.
pub(crate) fn expect(holds: bool, odd: Odd) -> Result<(), Odd> {
    if holds { Ok(()) } else { Err(odd) }
}

/// How much was compared.
#[derive(Drop)]
pub(crate) struct Tally {
    /// Games that were compared, such with too many words, and such that met the limits of a search.
    pub games: u32,
    pub skipped: u32,
    pub limited: u32,
    /// Legal moves, and those of more than one pair.
    pub moves: u32,
    pub longer_moves: u32,
    /// Places whose moves are all known, and such that have none.
    pub whole_places: u32,
    pub finished: u32,
    /// Lists of pairs that are no moves.
    pub illegal: u32,
    /// What is reached: pairs, ends, and starts from which all is known.
    pub pairs: u32,
    pub ends: u32,
    pub whole_starts: u32,
    /// Patterns that are valid or not.
    pub valid: u32,
    pub invalid: u32,
    /// What was asked by leaps and step by step, and was too deep or too wide for both.
    pub deep: u32,
    pub wide: u32,
}

/// Adds to a count.
pub(crate) fn add(count: &mut u32, more: usize) {
    *count = count.saturating_add(more.min(1_000) as u32);
}

impl Tally {
    /// Nothing was compared yet.
    pub(crate) fn new() -> Tally {
        Tally {
            games: 0,
            skipped: 0,
            limited: 0,
            moves: 0,
            longer_moves: 0,
            whole_places: 0,
            finished: 0,
            illegal: 0,
            pairs: 0,
            ends: 0,
            whole_starts: 0,
            valid: 0,
            invalid: 0,
            deep: 0,
            wide: 0,
        }
    }

    pub(crate) fn count_next(&mut self, next: &Next) {
        add(&mut self.pairs, next.pairs.len());
        add(&mut self.ends, next.ends as usize);
        add(&mut self.whole_starts, next.whole as usize);
    }

    pub(crate) fn count_moves(&mut self, moves: &Moves) {
        add(&mut self.moves, moves.moves.len());
        for played in &moves.moves {
            add(&mut self.longer_moves, (played.pairs.len() > 1) as usize);
        }
        add(&mut self.whole_places, moves.whole as usize);
        add(
            &mut self.finished,
            (moves.whole && moves.moves.is_empty()) as usize,
        );
    }

    /// Counts why a search was given up.
    pub(crate) fn count_over(&mut self, over: Over) {
        match over {
            Over::Deep => add(&mut self.deep, 1),
            Over::Wide => add(&mut self.wide, 1),
            Over::Memory => {}
        }
    }

    /// Whether so much was compared that each kind of answer was met often.
    pub(crate) fn shows_enough(&self) -> bool {
        self.games > 1_500
            && self.limited < 10
            && self.moves > 5_000
            && self.longer_moves > 2_000
            && self.whole_places > 3_000
            && self.finished > 500
            && self.illegal > 10_000
            && self.pairs > 40_000
            && self.ends > 10_000
            && self.whole_starts > 50_000
            && self.valid > 1_000
            && self.invalid > 1_000
            && self.deep > 100
            && self.wide > 100
    }
}
