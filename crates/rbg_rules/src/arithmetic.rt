//! Arithmetic over whole numbers, variables and counts of pieces.

use rbg_base::{Operator, Piece, Variable};

/// Operations of one rank form a list, so the depth of an expression is that of its brackets.
#[cycle(arithmetic)]
#[derive(Debug)]
pub enum Arithmetic {
    Number(u64),
    Variable(Variable),
    /// The number of vertices that hold the piece.
    PieceCount(Piece),
    Negated(Box<Arithmetic>),
    /// A sum or a product: the operations are taken from the left.
    Chain {
        first: Box<Arithmetic>,
        rest: Vec<Operation>,
    },
}

/// Written by hand: dropping an expression is then one call in the proofs of its owners, not a step for each part.
impl Drop for Arithmetic {
    #[cycle(arithmetic)]
    fn drop(self) {
        match self {
            Arithmetic::Number(_)
            | Arithmetic::Variable(_)
            | Arithmetic::PieceCount(_)
            | Arithmetic::Negated(_)
            | Arithmetic::Chain { first: _, rest: _ } => {}
        }
    }
}

/// What a chain does next with its value so far.
#[cycle(arithmetic)]
#[derive(Debug, Drop)]
pub struct Operation {
    pub operator: Operator,
    pub operand: Arithmetic,
}
