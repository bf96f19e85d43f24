//! Why a match is not refereed to its end.

use rbg_game::LoadError;
use rbg_match::Outbox;
use thiserror::Error;

/// Why a match is not refereed to its end.
#[derive(Debug, Drop, Error)]
pub enum RefereeError {
    /// The text is no game.
    #[error("{0}")]
    Load(LoadError),
    /// A number of the config is outside its limits.
    #[error("a number of the config is outside its limits")]
    Config,
    /// A request for memory failed. Either `done` is 0 and `outgoing` has no seat, or the first `done` events were
    /// handled, the match had not ended after them, and `outgoing` is the outbox after them.
    #[error("out of memory after {done} events")]
    Memory { done: usize, outgoing: Outbox },
}
