//! What is found from one place in the rules and one semi-state with no modifier before it, by sets of vertices.
#![tactic(auto)]

mod ending;
mod flat;
mod followers;
mod found;
mod gathering;
pub mod laws;
mod leading;
mod onward;
mod passing;
mod paths;
mod sets;
mod setting;
mod table;
mod walk;
mod words;

pub use ending::DeadEnd;
pub use flat::{AskedWord, Flat, NotGathered};
pub use found::Modifiers;
pub use onward::Onward;
pub use paths::{Paths, is_shift};
pub use words::{lowest, with, without};
