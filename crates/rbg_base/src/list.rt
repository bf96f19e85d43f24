//! Moves one after another, in two buffers.
ghost use Rattle.std.specs.Prelude.{◌≡◌, ◌<◌, ◌^◌, [], ◌∷◌, ◌++◌, length, slice_get, slice_range, Some, MatchResult};
ghost use Rattle.rbg_base.specs.List.{IsSpan};
ghost use Rattle.rbg_base.specs.Move.{most_pairs, IsMoveLength};

use crate::{Memory, Pair};
use std::alloc::Global;
use std::marker::Model;

/// Moves in the order in which they were added. Their pairs are one after another in one buffer. Contracts see the list
/// of the moves, each as the list of its pairs.
#[derive(Debug, Drop)]
pub struct MoveList {
    pairs: Vec<Pair>,
    /// For each move, where its pairs are in `pairs`.
    spans: Vec<Span>,
}

/// The pairs from `start` on and before `end`.
#[derive(Clone, Copy, Debug)]
struct Span {
    start: usize,
    end: usize,
}

impl Model for MoveList {
    ghost use Rattle.std.specs.Prelude.{ℕ, List, All, length};
    ghost use Rattle.rbg_base.specs.List.{lists_at, IsSpan};

    ghost Value = { List (List (ℕ × ℕ)) };

    ghost view = { λ l. lists_at l.pairs.items l.spans.items };

    ghost invariant = { λ l. All (IsSpan (length l.pairs.items)) l.spans.items };
}

impl MoveList {
    /// A list of no move.
    pub fn new(alloc: Global) -> MoveList
        ensures { result ≡ [] }
    {
        MoveList {
            pairs: Vec::new(alloc),
            spans: Vec::new(alloc),
        }
    }

    /// Appends the move of these pairs and one more. On an error the list is unchanged.
    pub fn push(&mut self, front: &[Pair], last: Pair) -> Result<(), Memory>
        requires { length front.now < most_pairs }
        ensures { MatchResult result
            (λ _. self.new ≡ self.old ++ (front.now ++ last ∷ []) ∷ [])
            (λ _. self.new ≡ self.old) }
    {
        let start = self.pairs.len();
        self.pairs.extend_from_slice(front)?;
        self.pairs.push(last)?;
        let end = self.pairs.len();
        self.spans.push(Span { start, end })?;
        Ok(())
    }

    /// The number of moves.
    pub fn len(&self) -> usize
        ensures count { result ≡ length self.now }
        ensures small { result < 2 ^ 63 }
    {
        self.spans.len()
    }

    /// The pairs of the move that was added after `index` others.
    pub fn get(&self, index: usize) -> &[Pair]
        requires { index < length self.now }
        ensures pairs { slice_get self.now index ≡ Some result.now }
        ensures range { IsMoveLength (length result.now) }
    {
        let span = self.spans[index];
        part(&self.pairs, span)
    }

    /// Takes all moves away, and keeps the room.
    pub fn clear(&mut self)
        ensures { self.new ≡ [] }
    {
        self.spans.clear();
        self.pairs.clear();
    }
}

/// The pairs of a span.
fn part(pairs: &[Pair], span: Span) -> &[Pair]
    requires { IsSpan (length pairs.now) span }
    ensures { result.now ≡ slice_range pairs.now span.start span.end }
{
    &pairs[span.start..span.end]
}
