//! The checked rules of a game, its board and the names of its things, with the meaning of a game as definitions, and
//! small games with facts about them.
#![tactic(auto)]

pub mod arithmetic;
pub mod examples;
pub mod game;
pub mod laws;
pub mod limits;
pub mod rule;
pub mod spelling_laws;

pub use arithmetic::{Arithmetic, Operation};
pub use game::{Game, Parts};
pub use rbg_base::{Operator, Relation};
pub use rule::{Action, Rule, Rules};
