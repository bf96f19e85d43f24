//! The automaton of positions: which positions can come next in the rules of a game.
#![tactic(auto)]

mod arrays;
mod at_position;
mod compiling;
pub mod laws;
mod lent_steps;
mod packing;
mod plain;
mod prepare;
mod rest;
mod span;
mod span_index;
pub mod steps;
mod table;
mod table_builder;
mod tree;
mod union;

pub use arrays::Compact;
pub use at_position::at_or;
pub use compiling::{compile, compile_tree};
pub use lent_steps::LentSteps;
pub use packing::{compact, compact_tree};
pub use plain::Automaton;
pub use steps::{Expr, Glance, Steps};
