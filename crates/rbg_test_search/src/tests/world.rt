//! Semi-states of the tests' own, and what the actions do that are no patterns.
use crate::tests::board::{Board, MOST_VERTICES};
use crate::tests::tree::{Action, Operand, Operator, Sum};
use rbg_base::{Piece, Player, Relation, Variable, Vertex};

/// The greatest values of the variables: the scores of white and black, and `n`.
pub(crate) const BOUNDS: [i64; 3] = [4, 4, 2];

/// A semi-state.
#[derive(Clone, Copy)]
pub(crate) struct World {
    pub player: Player,
    pub vertex: Vertex,
    /// The pieces of the board's vertices, and no more.
    pub pieces: [Piece; MOST_VERTICES],
    pub values: [i64; 3],
}

/// How many of the first vertices hold a piece.
fn count(pieces: &[Piece], piece: Piece) -> i64 {
    let mut count: i64 = 0;
    for held in pieces {
        if *held == piece {
            count = count.saturating_add(1);
        }
    }
    count
}

fn relates(left: i64, relation: Relation, right: i64) -> bool {
    match relation {
        Relation::Equal => left == right,
        Relation::NotEqual => left != right,
        Relation::Less => left < right,
        Relation::LessOrEqual => left <= right,
        Relation::Greater => left > right,
        Relation::GreaterOrEqual => left >= right,
    }
}

impl World {
    /// Where play begins.
    pub(crate) fn start(board: &Board) -> World {
        let mut pieces = [0; MOST_VERTICES];
        for vertex in 0..MOST_VERTICES {
            if let Some(piece) = board.first(vertex) {
                pieces[vertex] = piece;
            }
        }
        World {
            player: 0,
            vertex: 0,
            pieces,
            values: [0; 3],
        }
    }

    /// The piece on a vertex.
    fn piece(&self, vertex: Vertex) -> Option<Piece> {
        self.pieces.get(vertex as usize).copied()
    }

    fn operand(&self, board: &Board, operand: Operand) -> Option<i64> {
        match operand {
            Operand::Number(number) => Some(i64::from(number)),
            Operand::Variable(variable) => self.values.get(variable as usize).copied(),
            Operand::Count(piece) => {
                let vertices = self.pieces.get(..board.len())?;
                Some(count(vertices, piece))
            }
        }
    }

    fn sum(&self, board: &Board, sum: Sum) -> Option<i64> {
        let first = self.operand(board, sum.first)?;
        let second = self.operand(board, sum.second)?;
        match sum.operator {
            Operator::Plus => first.checked_add(second),
            Operator::Minus => first.checked_sub(second),
            Operator::Times => first.checked_mul(second),
            Operator::Over => first.checked_div(second),
        }
    }

    /// The semi-state with a value of a variable, if that is within the variable's bound.
    fn with_value(&self, variable: Variable, value: i64) -> Option<World> {
        let bound = *BOUNDS.get(variable as usize)?;
        if value < 0 || value > bound {
            return None;
        }
        let mut world = *self;
        *world.values.get_mut(variable as usize)? = value;
        Some(world)
    }

    /// The semi-state itself, if that is so.
    fn kept_if(&self, holds: bool) -> Option<World> {
        if holds { Some(*self) } else { None }
    }

    /// The semi-state after an action, if it is valid.
    pub(crate) fn after(&self, board: &Board, action: Action) -> Option<World> {
        match action {
            Action::Shift(direction) => Some(World {
                vertex: board.step(self.vertex, direction)?,
                ..*self
            }),
            Action::On(piece) => self.kept_if(self.piece(self.vertex) == Some(piece)),
            Action::OnAny => Some(*self),
            Action::OnNone => None,
            Action::Off(piece) => {
                let mut world = *self;
                *world.pieces.get_mut(self.vertex as usize)? = piece;
                Some(world)
            }
            Action::Assign(variable, value) => {
                self.with_value(variable, self.sum(board, value)?)
            }
            Action::Compare(left, relation, right) => {
                let left = self.sum(board, left)?;
                let right = self.operand(board, right)?;
                self.kept_if(relates(left, relation, right))
            }
            Action::Switch(player) => Some(World { player, ..*self }),
        }
    }
}
