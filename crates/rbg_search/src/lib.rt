//! What is reached from a semi-state of a game along its rules, and whether patterns hold there.
#![tactic(auto)]

mod answer;
mod buffers;
mod by_sets;
mod dead_ends;
mod flat_pool;
mod game_steps;
mod held_paths;
mod lists;
mod order;
mod over;
mod scan;
mod search;
mod single;
mod standing;
mod tally;
mod trials;

pub use buffers::Buffers;
pub use game_steps::GameSteps;
pub use over::Over;
pub use rbg_base::Memory;
pub use rbg_flat::Onward;
pub use rbg_shifts::Origin;
pub use search::{Budget, FlatPart, Search};
pub use tally::Tally;
