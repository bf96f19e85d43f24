//! The grammar of game descriptions: the trees that descriptions are, and which tokens spell which tree.
#![tactic(auto)]

mod description;
pub mod examples;
mod expression;
pub mod laws;
mod names;
mod rule;

pub use description::{
    Bounded, Description, DescriptionParts, Edge, HexagonDirections, ParsedBoard,
    RectangleDirections, Vertex,
};
pub use expression::{Expression, Operand, Rank};
pub use names::{Name, Number};
pub use rbg_base::Operator;
pub use rule::{ParsedAction, ParsedRule};
