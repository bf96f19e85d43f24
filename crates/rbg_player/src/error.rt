//! Why a player stops.
ghost use Rattle.std.specs.Prelude.{◌≡◌};
ghost use Rattle.rbg_player.specs.declared.error.PlayerError.TheVariants.{Memory as OutOfMemory};
ghost use Rattle.rbg_player.specs.internal.Sitting.{error_of};

use rbg_base::Memory;
use rbg_moves::Over as OverLimits;
use thiserror::Error;

/// Why a player stops.
#[derive(Clone, Copy, Debug, PartialEq, Eq, Error)]
pub enum PlayerError {
    /// 1: a message is too long, is not of the grammar or is out of place, or the text of `G` is no game with the
    /// player in it.
    #[error("a message is not of the grammar, or is out of place")]
    BadMessage,
    /// 2: the move that was made is not legal.
    #[error("the move that was made is not legal")]
    NotLegal,
    /// 3: a question that the player asks is above the limits.
    #[error("a question is above the limits")]
    Over,
    /// 4: a request for memory failed.
    #[error("out of memory")]
    Memory,
    /// 5: there is no seat for the player.
    #[error("no such seat")]
    NoSeat,
}

impl From<Memory> for PlayerError {
    ghost from_gives = { λ _ error. error ≡ OutOfMemory };

    fn from(_memory: Memory) -> PlayerError {
        PlayerError::Memory
    }
}

impl From<OverLimits> for PlayerError {
    ghost from_gives = { λ over error. error ≡ error_of over };

    fn from(over: OverLimits) -> PlayerError {
        match over {
            OverLimits::Deep | OverLimits::Wide => PlayerError::Over,
            OverLimits::Memory => PlayerError::Memory,
        }
    }
}
