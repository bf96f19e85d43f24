//! The referee of a match. It reads the seats' streams and the clock, judges each move by the rules of the game, and
//! queues for each seat the messages of the match.
#![tactic(auto)]

mod arrival;
mod asking;
mod config;
mod dispatch;
mod error;
mod handling;
mod input;
mod items;
pub mod laws;
mod made;
mod matches;
mod opening;
mod outbox;
mod play;
mod state;
mod turns;

pub use arrival::Arrival;
pub use config::{Config, LATEST_MOMENT, MAX_REFUSALS, MAX_TURN_MS};
pub use error::MatchError;
pub use made::Made;
pub use matches::Match;
pub use opening::MESSAGE_LIMIT;
pub use outbox::{MAX_SEATS, Outbox};
