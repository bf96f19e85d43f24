//! The parser of game descriptions: the tree that the tokens of a description's sections spell.
#![tactic(auto)]

mod arithmetic;
mod assignments;
mod atoms;
mod boards;
mod error;
pub mod laws;
mod lists;
mod parser;
mod parsing;
mod phrase;
mod rules;
mod sections;
mod sequences;

pub use error::{Expectation, SyntaxError};
pub use parsing::parse;
