//! Rewrites a description in the language of its paper where this language spells it otherwise: a board of layers, or
//! of rows with holes, becomes a graph with the same directions, and each `/* */` becomes comments that begin with
//! `//`. All other bytes stay. What can't be rewritten is reported with its place.
#![tactic(auto)]

mod board;
mod board_reader;
mod comments;
mod definitions;
mod fault;
mod graph;
mod place;
mod whole_text;

pub use fault::{FaultKind, ImportFault};
pub use whole_text::{Imported, import};
