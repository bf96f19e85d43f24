//! Semi-states of a game of Regular Boardgames, which change in place, and what its actions do to them.
#![tactic(auto)]

mod change;
mod fitting;
mod occupancy;
mod parts;
mod rows;
mod state;

pub use change::Mark;
pub use fitting::LentState;
pub use rbg_base::Memory;
pub use state::{Applied, SemiState, Trial};
