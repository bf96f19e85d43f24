//! What questions leave to later ones.
ghost use Rattle.std.specs.Prelude.{◌≡◌, [], IfOk, OnOk};

use crate::place::Place;
use rbg_base::{Memory, MoveList, Pair};
use rbg_search::{Buffers, Tally};
use rbg_state::SemiState;
use std::alloc::Global;

/// What questions leave to later ones: their buffers, and what they took up in all.
pub struct Workspace {
    pub(crate) buffers: Buffers,
    /// What the questions took up in all.
    pub(crate) tally: Tally,
    /// The modifiers that a question has applied, each with its vertex; and where it looked for one move, the pairs of that
    /// move.
    pub(crate) front: Vec<Pair>,
    /// What was written down while a move was drawn.
    pub(crate) draws: Draws,
    /// Semi-states that are not in use.
    states: Vec<SemiState>,
    /// Lists of moves that are not in use.
    lists: Vec<MoveList>,
}

/// The lists that drawing a move takes. What they hold is of no use afterwards.
#[derive(Drop)]
pub(crate) struct Draws {
    /// The modifiers that may begin the move.
    pub first: Vec<Pair>,
    /// How many tickets each of them has.
    pub tickets: Vec<u64>,
    /// The modifiers that come next.
    pub next: Vec<Pair>,
}

impl Draws {
    fn new(alloc: Global) -> Draws {
        Draws {
            first: Vec::new(alloc),
            tickets: Vec::new(alloc),
            next: Vec::new(alloc),
        }
    }
}

/// Written out, so that letting a workspace go is one call in the proofs of those who hold one, not a step for each part.
impl Drop for Workspace {
    fn drop(self) {
        let Workspace {
            buffers: _,
            tally: _,
            front: _,
            draws: _,
            states: _,
            lists: _,
        } = self;
    }
}

impl Workspace {
    /// A workspace that no question has used.
    pub fn new(alloc: Global) -> Workspace
        ensures { result.tally ≡ record { openings = 0; pairs = 0 } }
    {
        Workspace {
            buffers: Buffers::new(alloc),
            tally: Tally::new(),
            front: Vec::new(alloc),
            draws: Draws::new(alloc),
            states: Vec::new(alloc),
            lists: Vec::new(alloc),
        }
    }

    /// How many openings the questions took up.
    pub fn openings(&self) -> u64
        ensures { result ≡ self.now.tally.openings }
    {
        self.tally.openings()
    }

    /// How many pairs of a position and a vertex the questions met, without shifts where the game has leaps.
    pub fn pairs(&self) -> u64
        ensures { result ≡ self.now.tally.pairs }
    {
        self.tally.pairs()
    }

    /// Keeps the buffers of a place that is no longer needed.
    pub fn keep(&mut self, place: Place)
        ensures tally { self.new.tally ≡ self.old.tally }
    {
        // where there is no memory, it is let go
        let _kept = self.states.push(place.state);
    }

    /// Some place, whose buffers are of use for another one: one that was kept, where there is one. It may be a place of
    /// no game.
    pub fn spare(&mut self) -> Place
        ensures tally { self.new.tally ≡ self.old.tally }
    {
        let state = match self.states.pop() {
            Some(state) => state,
            None => SemiState::empty(*self.states.allocator()),
        };
        Place { state, after: None }
    }

    /// A copy of a place, with no change to take back, in the buffers of one that was kept, where there is one.
    pub fn copy_of(&mut self, place: &Place) -> Result<Place, Memory>
        ensures copy { IfOk result (λ copy. copy ≡ place.now) }
        ensures tally { self.new.tally ≡ self.old.tally }
    {
        let Some(state) = self.states.pop() else {
            return place.try_clone();
        };
        let mut copy = Place { state, after: None };
        copy.copy_from(place)?;
        Ok(copy)
    }

    /// The pairs of the move that was chosen last.
    pub fn chosen(&self) -> &[Pair]
        ensures { result.now ≡ self.now.front.items }
    {
        self.front.as_slice()
    }

    /// Keeps the pairs of a move that is chosen.
    pub(crate) fn choose(&mut self, pairs: &[Pair]) -> Result<(), Memory>
        ensures chosen { OnOk result (self.new.front.items ≡ pairs.now) }
        ensures tally { self.new.tally ≡ self.old.tally }
    {
        self.front.clear();
        self.front.extend_from_slice(pairs)
    }

    /// Keeps a list of pairs that is no longer needed.
    pub fn keep_pairs(&mut self, pairs: Vec<Pair>)
        ensures tally { self.new.tally ≡ self.old.tally }
    {
        self.front = pairs;
    }

    /// Keeps a list of moves that is no longer needed.
    pub fn keep_moves(&mut self, moves: MoveList)
        ensures tally { self.new.tally ≡ self.old.tally }
        ensures front { self.new.front.items ≡ self.old.front.items }
    {
        // where there is no memory, it is let go
        let _kept = self.lists.push(moves);
    }

    /// A list of no moves.
    pub(crate) fn take_moves(&mut self) -> MoveList
        ensures none { result ≡ [] }
        ensures tally { self.new.tally ≡ self.old.tally }
    {
        match self.lists.pop() {
            Some(moves) => emptied(moves),
            None => MoveList::new(*self.lists.allocator()),
        }
    }
}

/// The list without its moves.
fn emptied(moves: MoveList) -> MoveList
    ensures { result ≡ [] }
{
    let mut moves = moves;
    moves.clear();
    moves
}
