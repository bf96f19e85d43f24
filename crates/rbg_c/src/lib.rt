//! The library for programs in C: the states of a game as values, and the calls of include/rbg.h.
#![tactic(auto)]

mod asking;
mod chance;
mod faults;
mod filling;
mod handle;
mod listing;
mod loose;
mod naming;
mod opening;
mod pairs;
mod playing;
mod playouts;
mod results;
mod shape;
mod state;

pub use handle::Handle;
pub use pairs::ModifierPair;
pub use state::State;
