//! How many moves may go on after each modifier, at most. By these weights a move is drawn by chance.

use rbg_auto::{Expr, Steps};
use rbg_base::{Memory, Pair, Position, Vertex};
use rbg_rules::{Action, Game};
use std::alloc::Global;

/// A weight that isn't known: too many moves may go on, or too much would have to be looked at.
const UNKNOWN: u32 = u32::MAX;

/// The greatest weight that is known.
const MOST_MOVES: u32 = 2048;

/// The most weights that are kept.
const MOST_WEIGHTS: usize = 1 << 20;

/// The most pairs of a position and a vertex that are looked at for one weight.
const LONGEST_WALK: usize = 1 << 10;

/// The most that are looked at for all weights together.
const MOST_LOOKS: u32 = 1 << 20;

/// The most shifts of a pattern that are followed.
const MOST_SHIFTS: usize = 64;

/// For each modifier of a game and each vertex at least as many as there are moves that go on after it there, whatever
/// stands on the board and whatever the variables hold. They are made of the rules and the edges of the board alone.
/// Nothing is proved of them: they decide how evenly moves are drawn, not which moves are legal.
#[derive(Drop)]
pub(crate) struct Weights {
    vertices: Vertex,
    /// Those of position 0 at each vertex first, then those of position 1.
    weights: Vec<u32>,
    /// Whether a modifier with a known weight may come first after each position, from 0 on.
    useful: Vec<bool>,
}

/// What is met from after a modifier on.
#[derive(Clone, Copy, Drop)]
enum Met {
    /// One may be led on, at this vertex.
    Leads(Vertex),
    /// So many moves may go on.
    Moves(u32),
    /// Nobody can say how many.
    Unknown,
}

impl Weights {
    /// The weights of a game; none where there would be too many.
    pub(crate) fn new<S: Steps>(
        alloc: Global,
        game: &Game,
        steps: &S,
    ) -> Result<Option<Weights>, Memory> {
        let vertices = game.board().len();
        let positions = game.positions() + 1;
        if positions > MOST_WEIGHTS / vertices {
            return Ok(None);
        }
        let pairs = positions.saturating_mul(vertices);
        let mut weights = Weights {
            vertices: vertices as Vertex,
            weights: vec![in alloc; UNKNOWN; pairs]?,
            useful: vec![in alloc; false; positions]?,
        };
        let mut walk = Walk::new(alloc, pairs)?;
        // most modifiers that come later stand later in the rules
        for after in 1..positions {
            weights.weigh(game, steps, (positions - after) as Position, &mut walk)?;
        }
        for index in 1..positions {
            weights.look_after(game, steps, index as Position, &mut walk)?;
        }
        Ok(Some(weights))
    }

    /// Weighs the action at a position, at each vertex.
    fn weigh<S: Steps>(
        &mut self,
        game: &Game,
        steps: &S,
        position: Position,
        walk: &mut Walk,
    ) -> Result<(), Memory> {
        for vertex in 0..self.vertices {
            let weight = walk.weight(game, steps, self, Pair { vertex, position })?;
            let place = self.place(Pair { vertex, position });
            if place < self.weights.len() {
                self.weights[place] = weight.unwrap_or(UNKNOWN);
            }
        }
        Ok(())
    }

    /// Finds out whether a modifier with a known weight may come first after the switch at a position. Two vertices are
    /// looked from.
    fn look_after<S: Steps>(
        &mut self,
        game: &Game,
        steps: &S,
        position: Position,
        walk: &mut Walk,
    ) -> Result<(), Memory> {
        if !is_switch(game, position) {
            return Ok(());
        }
        let index = position as usize;
        for vertex in [0, self.vertices / 2] {
            let useful = walk.meets_known(game, steps, self, Pair { vertex, position })?;
            if useful && index < self.useful.len() {
                self.useful[index] = true;
            }
        }
        Ok(())
    }

    /// Where the weight of a modifier at a vertex is.
    #[inline(always)]
    fn place(&self, pair: Pair) -> usize {
        (pair.position as usize)
            .wrapping_mul(self.vertices as usize)
            .wrapping_add(pair.vertex as usize)
    }

    /// The weight of a modifier at a vertex; none where it isn't known.
    #[inline(always)]
    pub(crate) fn of(&self, pair: Pair) -> Option<u32> {
        match self.weights.get(self.place(pair)) {
            Some(weight) if *weight != UNKNOWN => Some(*weight),
            _ => None,
        }
    }

    /// Whether it is of use to draw a move after the action at a position.
    #[inline(always)]
    pub(crate) fn are_useful(&self, after: Option<Position>) -> bool {
        match after {
            Some(position) => match self.useful.get(position as usize) {
                Some(useful) => *useful,
                None => false,
            },
            None => false,
        }
    }
}

/// A walk from after a modifier to all modifiers that may come next.
#[derive(Drop)]
struct Walk {
    /// The round in which each position was last met at each vertex.
    seen: Vec<u32>,
    round: u32,
    todo: Vec<Pair>,
    /// How many pairs may be looked at still.
    left: u32,
}

impl Walk {
    fn new(alloc: Global, pairs: usize) -> Result<Walk, Memory> {
        Ok(Walk {
            seen: vec![in alloc; 0; pairs]?,
            round: 0,
            todo: Vec::new(alloc),
            left: MOST_LOOKS,
        })
    }

    /// Begins a walk after the action at a position and a vertex.
    fn begin<S: Steps>(&mut self, steps: &S, weights: &Weights, from: Pair) -> Result<(), Memory> {
        self.round = self.round.wrapping_add(1);
        self.todo.clear();
        self.meet(weights, steps.next(from.position), from.vertex)
    }

    /// Meets these positions at a vertex. Those that are new are to be looked at.
    fn meet(
        &mut self,
        weights: &Weights,
        positions: &[Position],
        vertex: Vertex,
    ) -> Result<(), Memory> {
        for position in positions {
            let pair = Pair {
                vertex,
                position: *position,
            };
            let place = weights.place(pair);
            if place < self.seen.len() && self.seen[place] != self.round {
                self.seen[place] = self.round;
                self.todo.push(pair)?;
            }
        }
        Ok(())
    }

    /// Whether one pair more may be looked at, which is counted.
    fn may_look(&mut self) -> bool {
        if self.left == 0 {
            return false;
        }
        self.left -= 1;
        true
    }

    /// The weight of the action at a position and a vertex; none where it isn't known, or where no modifier stands.
    fn weight<S: Steps>(
        &mut self,
        game: &Game,
        steps: &S,
        weights: &Weights,
        pair: Pair,
    ) -> Result<Option<u32>, Memory> {
        match action_at(game, pair.position) {
            Some(Action::Switch { .. }) => Ok(Some(1)),
            Some(Action::Off { .. } | Action::Assign { .. }) => {
                self.moves_after(game, steps, weights, pair)
            }
            _ => Ok(None),
        }
    }

    /// How many moves may go on after a modifier at a vertex; none where nobody can say.
    fn moves_after<S: Steps>(
        &mut self,
        game: &Game,
        steps: &S,
        weights: &Weights,
        from: Pair,
    ) -> Result<Option<u32>, Memory> {
        self.begin(steps, weights, from)?;
        let mut moves = 0_u32;
        for _ in 0..LONGEST_WALK {
            let Some(pair) = self.todo.pop() else {
                return Ok(Some(moves));
            };
            if !self.may_look() {
                return Ok(None);
            }
            match look(game, steps, weights, from.position, pair) {
                Some(Met::Leads(vertex)) => {
                    self.meet(weights, steps.next(pair.position), vertex)?;
                }
                Some(Met::Moves(more)) => moves = moves.saturating_add(more),
                Some(Met::Unknown) => return Ok(None),
                None => {}
            }
            if moves > MOST_MOVES {
                return Ok(None);
            }
        }
        Ok(None)
    }

    /// Whether a modifier with a known weight, which is no switch, may come first after the action at a position and a vertex.
    fn meets_known<S: Steps>(
        &mut self,
        game: &Game,
        steps: &S,
        weights: &Weights,
        from: Pair,
    ) -> Result<bool, Memory> {
        self.begin(steps, weights, from)?;
        for _ in 0..LONGEST_WALK {
            let Some(pair) = self.todo.pop() else {
                return Ok(false);
            };
            if !self.may_look() {
                return Ok(false);
            }
            match look(game, steps, weights, 0, pair) {
                Some(Met::Leads(vertex)) => {
                    self.meet(weights, steps.next(pair.position), vertex)?;
                }
                Some(Met::Moves(_)) => {
                    if !is_switch(game, pair.position) {
                        return Ok(true);
                    }
                }
                Some(Met::Unknown) | None => {}
            }
        }
        Ok(false)
    }
}

/// Whether a switch stands at a position.
fn is_switch(game: &Game, position: Position) -> bool {
    matches!(action_at(game, position), Some(Action::Switch { .. }))
}

/// What is met at a position and a vertex, after the modifier at a position before; none where nothing goes on.
fn look<S: Steps>(
    game: &Game,
    steps: &S,
    weights: &Weights,
    before: Position,
    pair: Pair,
) -> Option<Met> {
    match action_at(game, pair.position)? {
        Action::Shift { direction } => {
            if pair.vertex as usize >= game.board().len() {
                return None;
            }
            let to = game.board().step(pair.vertex, *direction)?;
            Some(Met::Leads(to))
        }
        Action::On { .. } | Action::Compare { .. } => Some(Met::Leads(pair.vertex)),
        Action::Positive => match leads_out(game, steps, pair) {
            Some(false) => None,
            _ => Some(Met::Leads(pair.vertex)),
        },
        Action::Negative => match leads_out(game, steps, pair) {
            Some(true) => None,
            _ => Some(Met::Leads(pair.vertex)),
        },
        Action::Switch { .. } => Some(Met::Moves(1)),
        Action::Off { .. } | Action::Assign { .. } => {
            // one that stands before isn't weighed yet
            if pair.position <= before {
                return Some(Met::Unknown);
            }
            match weights.of(pair) {
                Some(moves) => Some(Met::Moves(moves)),
                None => Some(Met::Unknown),
            }
        }
    }
}

/// The action at a position, if there is one.
fn action_at(game: &Game, position: Position) -> Option<&Action> {
    if position == 0 || position as usize > game.positions() {
        return None;
    }
    Some(game.action(position))
}

/// Whether the inside of the pattern at a position holds at a vertex, where it is a straight line of shifts; none where it is
/// something else.
fn leads_out<S: Steps>(game: &Game, steps: &S, pattern: Pair) -> Option<bool> {
    let mut vertex = pattern.vertex;
    let mut position = only(steps.first(Expr::Inside(pattern.position)))?;
    for _ in 0..MOST_SHIFTS {
        let Some(Action::Shift { direction }) = action_at(game, position) else {
            return None;
        };
        if vertex as usize >= game.board().len() {
            return None;
        }
        let Some(to) = game.board().step(vertex, *direction) else {
            return Some(false);
        };
        if steps.may_end(position) {
            return Some(true);
        }
        vertex = to;
        position = only(steps.next(position))?;
    }
    None
}

/// The one position of a list that has one.
fn only(positions: &[Position]) -> Option<Position> {
    match positions {
        [position] => Some(*position),
        _ => None,
    }
}
