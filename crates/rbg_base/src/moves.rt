//! A move: a list of pairs that is neither empty nor too long.
ghost use Rattle.std.specs.Prelude.{◌≡◌, ℕ, ◌+◌, ◌<◌, ◌≤◌, ◌==◌, List, [], ◌∷◌, ◌++◌, length, slice_get, Some};
ghost use Rattle.rbg_base.specs.Move.{most_pairs, IsMoveLength};

use crate::{MoveLengthError, Pair};
use arrayvec::ArrayVec;
use std::marker::Model;
use std::slice;

/// The maximum number of pairs of a move.
pub const MAX_PAIRS: usize = 200;

/// The pairs of a move, 1 to 200, in order. They are stored in the value itself. Contracts see the list.
#[derive(Clone, Debug, Drop, PartialEq, Eq, PartialOrd, Ord, Hash)]
pub struct Move {
    pairs: ArrayVec<Pair, MAX_PAIRS>,
}

impl Model for Move {
    ghost use Rattle.std.specs.Prelude.{ℕ, List, length};
    ghost use Rattle.rbg_base.specs.Move.{IsMoveLength};

    ghost Value = { List (ℕ × ℕ) };

    ghost view = { λ m. m.pairs.items };

    ghost invariant = { λ m. IsMoveLength (length m.pairs.items) };

    ghost inverse = { λ ps. record { pairs = record { items = ps } } };
}

impl Move {
    /// The move of one pair.
    pub fn new(first: Pair) -> Move
        ensures { result ≡ first ∷ [] }
    {
        let mut pairs = ArrayVec::new();
        pairs.push(first);
        Move { pairs }
    }

    /// Appends a pair. There must be room.
    pub fn push(&mut self, pair: Pair)
        requires { length self.old < most_pairs }
        ensures { self.new ≡ self.old ++ pair ∷ [] }
    {
        self.pairs.push(pair);
    }

    /// The number of pairs.
    pub fn len(&self) -> usize
        ensures count { result ≡ length self.now }
        ensures range { IsMoveLength result }
    {
        self.pairs.len()
    }

    /// Whether there is no room for another pair.
    pub fn is_full(&self) -> bool
        ensures value { result ≡ (length self.now == most_pairs) }
        ensures fits { length self.now ≤ most_pairs }
    {
        self.pairs.is_full()
    }

    /// The first pair.
    pub fn first(&self) -> Pair
        ensures { slice_get self.now 0 ≡ Some result }
    {
        self.pairs[0]
    }

    /// The pairs in order.
    pub fn as_slice(&self) -> &[Pair]
        ensures pairs { result.now ≡ self.now }
        ensures range { IsMoveLength (length result.now) }
    {
        self.pairs.as_slice()
    }
}

/// The move of these pairs, if they are 1 to 200.
impl TryFrom<&[Pair]> for Move {
    type Error = MoveLengthError;

    ghost use Rattle.std.specs.Prelude.{length};
    ghost use Rattle.std.specs.Result.{OkIff};
    ghost use Rattle.rbg_base.specs.Move.{IsMoveLength};

    ghost try_from_gives = { λ pairs result. OkIff result (IsMoveLength (length pairs.now)) pairs.now };

    fn try_from(pairs: &[Pair]) -> Result<Move, MoveLengthError> {
        if pairs.is_empty() {
            return Err(MoveLengthError);
        }
        match ArrayVec::try_from(pairs) {
            Ok(pairs) => Ok(Move { pairs }),
            Err(_) => Err(MoveLengthError),
        }
    }
}
