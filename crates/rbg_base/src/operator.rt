//! The operator of a sum or of a product.

/// What is done with an operand.
#[derive(Clone, Copy, Debug)]
pub enum Operator {
    /// `+`
    Plus,
    /// `-`
    Minus,
    /// `*`
    Times,
    /// `/`
    Over,
}
