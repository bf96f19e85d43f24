//! The questions answered slowly: each word is tried, letter by letter. Of a word with more than six letters only the
//! first six are tried, so an answer also says whether it is whole.
use crate::tests::board::Board;
use crate::tests::table::{Stands, Table};
use crate::tests::words::{LETTERS, Word};
use crate::tests::world::World;
use rbg_base::Position;
use rbg_moves::Pair;
use std::alloc::{AllocError, Global};

/// Patterns stand one inside the other at most that deep.
const NESTED: u8 = 8;

/// What becomes of an action that is tried.
#[derive(Clone, Copy)]
enum Tried {
    To(World),
    Invalid,
    /// A longer word may run or not.
    Unknown,
}

/// Whether something is so, as far as it is known.
#[derive(Clone, Copy)]
pub(crate) enum Known {
    Yes,
    No,
    Unknown,
}

/// A game: its board and its words.
#[derive(Clone, Copy)]
pub(crate) struct Rules<'a> {
    pub board: &'a Board,
    pub table: &'a Table,
}

/// What is reached without a modifier.
#[derive(Drop)]
pub(crate) struct Next {
    /// The modifiers that come next, each once, with the vertex where it is valid.
    pub pairs: Vec<Pair>,
    /// Whether a word may end.
    pub ends: bool,
    /// Whether that is all.
    pub whole: bool,
}

/// Where a word leads up to its first switch.
#[derive(Clone, Copy)]
enum Turned {
    /// There is a switch at this last position, and all up to it runs.
    To(World, Position),
    /// There is none, or not all up to it runs.
    No,
    /// A longer word may have one.
    Unknown,
}

/// A legal move, and where it leads.
#[derive(Drop)]
pub(crate) struct Played {
    pub pairs: Vec<Pair>,
    pub world: World,
    pub last: Position,
}

/// The legal moves.
#[derive(Drop)]
pub(crate) struct Moves {
    /// Each once.
    pub moves: Vec<Played>,
    /// Whether that is all.
    pub whole: bool,
}

impl Rules<'_> {
    /// Tries the action at a position. Patterns stand at most `nested` deep in it.
    #[cycle(trying)]
    fn try_at(&self, world: &World, position: Position, nested: u8) -> Tried {
        let Some(entry) = self.table.entry(position) else {
            return Tried::Invalid;
        };
        match &entry.stands {
            Stands::Action(action) => match world.after(self.board, *action) {
                Some(after) => Tried::To(after),
                None => Tried::Invalid,
            },
            Stands::Pattern { positive, words } => {
                let Some(less) = nested.checked_sub(1) else {
                    return Tried::Unknown;
                };
                match (self.some_word_runs(world, words, less), *positive) {
                    (Known::Yes, true) | (Known::No, false) => Tried::To(*world),
                    (Known::Yes, false) | (Known::No, true) => Tried::Invalid,
                    (Known::Unknown, _) => Tried::Unknown,
                }
            }
        }
    }

    /// Whether some of the words runs.
    #[cycle(trying)]
    fn some_word_runs(&self, world: &World, words: &[Word], nested: u8) -> Known {
        let mut known = Known::No;
        for word in words {
            match self.word_runs(world, word, nested) {
                Known::Yes => return Known::Yes,
                Known::No => {}
                Known::Unknown => known = Known::Unknown,
            }
        }
        known
    }

    /// Whether a word runs.
    #[cycle(trying)]
    fn word_runs(&self, world: &World, word: &Word, nested: u8) -> Known {
        let mut world = *world;
        for number in 0..LETTERS {
            let Some(position) = word.letter(number) else {
                return Known::Yes;
            };
            match self.try_at(&world, position, nested) {
                Tried::To(after) => world = after,
                Tried::Invalid => return Known::No,
                Tried::Unknown => return Known::Unknown,
            }
        }
        if word.is_longer() {
            Known::Unknown
        } else {
            Known::Yes
        }
    }

    /// Whether the action at a position is valid.
    pub(crate) fn is_valid(&self, world: &World, position: Position) -> Known {
        match self.try_at(world, position, NESTED) {
            Tried::To(_) => Known::Yes,
            Tried::Invalid => Known::No,
            Tried::Unknown => Known::Unknown,
        }
    }

    /// What is reached without a modifier along these words.
    pub(crate) fn next(
        &self,
        alloc: Global,
        world: &World,
        words: &[Word],
    ) -> Result<Next, AllocError> {
        let mut next = Next {
            pairs: Vec::new(alloc),
            ends: false,
            whole: true,
        };
        for word in words {
            self.walk(&mut next, world, word)?;
        }
        Ok(next)
    }

    /// Goes along a word up to a modifier, or to its end.
    fn walk(&self, next: &mut Next, world: &World, word: &Word) -> Result<(), AllocError> {
        let mut world = *world;
        for number in 0..LETTERS {
            let Some(position) = word.letter(number) else {
                next.ends = true;
                return Ok(());
            };
            match self.try_at(&world, position, NESTED) {
                Tried::To(_) if self.table.is_modifier(position) => {
                    let pair = Pair {
                        vertex: world.vertex,
                        position,
                    };
                    return add_pair(&mut next.pairs, pair);
                }
                Tried::To(after) => world = after,
                Tried::Invalid => return Ok(()),
                Tried::Unknown => {
                    next.whole = false;
                    return Ok(());
                }
            }
        }
        if word.is_longer() {
            next.whole = false;
        } else {
            next.ends = true;
        }
        Ok(())
    }

    /// The legal moves along these words.
    pub(crate) fn moves(
        &self,
        alloc: Global,
        world: &World,
        words: &[Word],
    ) -> Result<Moves, AllocError> {
        let mut moves = Moves {
            moves: Vec::new(alloc),
            whole: true,
        };
        for word in words {
            self.play(alloc, &mut moves, world, word)?;
        }
        Ok(moves)
    }

    /// Adds the move of a word up to its first switch, if that is one.
    fn play(
        &self,
        alloc: Global,
        moves: &mut Moves,
        world: &World,
        word: &Word,
    ) -> Result<(), AllocError> {
        let mut pairs = Vec::new(alloc);
        match self.turn(world, word, &mut pairs)? {
            Turned::To(world, last) => moves.add(Played { pairs, world, last }),
            Turned::No => Ok(()),
            Turned::Unknown => {
                moves.whole = false;
                Ok(())
            }
        }
    }

    /// Goes along a word up to a switch, and appends the pairs.
    fn turn(
        &self,
        world: &World,
        word: &Word,
        pairs: &mut Vec<Pair>,
    ) -> Result<Turned, AllocError> {
        let mut world = *world;
        for number in 0..LETTERS {
            let Some(position) = word.letter(number) else {
                return Ok(Turned::No);
            };
            if self.table.is_modifier(position) {
                pairs.push(Pair {
                    vertex: world.vertex,
                    position,
                })?;
            }
            match self.try_at(&world, position, NESTED) {
                Tried::To(after) => world = after,
                Tried::Invalid => return Ok(Turned::No),
                Tried::Unknown => return Ok(Turned::Unknown),
            }
            if self.table.is_switch(position) {
                return Ok(Turned::To(world, position));
            }
        }
        if word.is_longer() {
            Ok(Turned::Unknown)
        } else {
            Ok(Turned::No)
        }
    }
}

impl Moves {
    /// Whether the pairs are one of the moves.
    pub(crate) fn has(&self, pairs: &[Pair]) -> bool {
        for played in &self.moves {
            if played.pairs.as_slice() == pairs {
                return true;
            }
        }
        false
    }

    /// Adds a move to a list that doesn't have it.
    fn add(&mut self, played: Played) -> Result<(), AllocError> {
        if self.has(&played.pairs) {
            return Ok(());
        }
        self.moves.push(played)?;
        Ok(())
    }
}

/// Adds a pair to a list that doesn't have it.
fn add_pair(pairs: &mut Vec<Pair>, pair: Pair) -> Result<(), AllocError> {
    if pairs.contains(&pair) {
        return Ok(());
    }
    pairs.push(pair)?;
    Ok(())
}
