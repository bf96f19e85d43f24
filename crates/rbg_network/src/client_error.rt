//! Why a player at its end of a stream can't go on. It is told as news, so it stands here.

use rbg_player::PlayerError;
use std::alloc::AllocError;
use thiserror::Error;

/// Why a player at its end of a stream can't go on.
#[derive(Clone, Copy, Debug, PartialEq, Eq, Error)]
pub enum ClientError {
    /// The stream failed, or ended before the match.
    #[error("the connection failed, or ended before the match")]
    Device,
    /// The player gives up.
    #[error("{0}")]
    Player(#[from] PlayerError),
}

impl From<AllocError> for ClientError {
    fn from(_error: AllocError) -> ClientError {
        ClientError::Player(PlayerError::Memory)
    }
}
