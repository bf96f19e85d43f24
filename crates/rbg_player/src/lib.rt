//! A player: it receives the stream of a seat, follows play by the rules of the game, and sends a legal move when it
//! has one to make.
#![tactic(auto)]

mod chooser;
mod error;
mod heard;
pub mod laws;
mod player;
mod seat;
mod stage;

pub use chooser::{Chooser, FirstChooser};
pub use error::PlayerError;
pub use heard::Heard;
pub use player::{MAX_MESSAGE_BYTES, Player};
pub use seat::MAX_CHOICES;
