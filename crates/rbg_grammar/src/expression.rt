//! Arithmetic as it is spelt. Sums and products are lists, so a tree is no deeper than its brackets.

use crate::names::{Name, Number};
use rbg_base::Operator;

/// An arithmetic expression.
#[cycle(expression)]
pub enum Expression<'a> {
    Number(Number),
    Name(Name<'a>),
    /// 0 minus the expression, as `-x`.
    Negated(Box<Expression<'a>>),
    /// A sum or a product: at least two operands, taken from the left, whose operators are all of one rank. The first one
    /// has `Plus` in a sum, and `Times` in a product.
    Chain(Vec<Operand<'a>>),
}

/// Written by hand: dropping an expression is then one call in the proofs of its owners, not a step for each part.
impl Drop for Expression<'_> {
    #[cycle(expression)]
    fn drop(self) {
        match self {
            Expression::Number(_)
            | Expression::Name(_)
            | Expression::Negated(_)
            | Expression::Chain(_) => {}
        }
    }
}

/// A part of a sum or of a product.
#[cycle(expression)]
#[derive(Drop)]
pub struct Operand<'a> {
    pub operator: Operator,
    pub value: Expression<'a>,
}

/// How tightly operators bind.
#[derive(Clone, Copy)]
pub enum Rank {
    /// That of `+` and `-`.
    Sum,
    /// That of `*` and `/`.
    Product,
}
