//! Why a description is no game.
ghost use Rattle.std.specs.Prelude.{◌≡◌, ◌<◌, ◌≤◌, IfErr, OnErr, OnOk};
ghost use Rattle.rbg_game.specs.declared.game_error.GameError.TheVariants as game_errors;
ghost use Rattle.rbg_game.specs.Names.{thing_name};

use rbg_base::Memory;
use rbg_board::BoardError;
use std::fmt;
use thiserror::Error;

/// Why a description is no game. Offsets are those of the text.
#[derive(Clone, Copy, Debug, PartialEq, Eq, Error)]
pub enum GameError {
    /// The name at this offset is not that of a direction, piece, player or variable, whichever is needed there.
    #[error("the name at byte {at} is unknown")]
    UnknownName { at: usize },
    /// The name at this offset was given before to a player, a variable or a piece.
    #[error("the name at byte {at} was given before")]
    SameName { at: usize },
    /// The number at this offset is above the maximum of a bound, or in arithmetic above 2^63 - 1.
    #[error("the number at byte {at} is too great")]
    Bound { at: usize },
    /// The switch at this offset is in a pattern.
    #[error("the switch at byte {at} is in a pattern")]
    SwitchInPattern { at: usize },
    /// The pattern at this offset is inside too many others.
    #[error("the pattern at byte {at} is nested too deep")]
    PatternTooDeep { at: usize },
    /// There are more of the things than a game may have.
    #[error("there are too many {what}")]
    TooMany { what: Thing },
    #[error("out of memory")]
    Memory,
    /// The board has a fault of its own.
    #[error("{error}")]
    Board { error: BoardError },
}

/// The things of which there may be too many.
#[derive(Clone, Copy, Debug, PartialEq, Eq)]
pub enum Thing {
    Players,
    Pieces,
    Variables,
    Directions,
    Positions,
}

impl Thing {
    /// Its name in a refusal, such as `pieces`.
    #[tactic(auto, unfolding(crate::specs::Names::thing_name))]
    pub fn name(self) -> &'static str
        ensures { result.now ≡ thing_name self }
    {
        match self {
            Thing::Players => "players",
            Thing::Pieces => "pieces",
            Thing::Variables => "variables",
            Thing::Directions => "directions",
            Thing::Positions => "positions",
        }
    }
}

impl fmt::Display for Thing {
    fn fmt<W: fmt::Write>(&self, f: &mut fmt::Formatter<W>) -> fmt::Result {
        f.write_str(self.name())
    }
}

/// An error of a refused allocation becomes `Memory`.
impl<E: Into<Memory> + Drop> From<E> for GameError {
    ghost from_gives = { λ _ error. error ≡ game_errors.Memory };

    fn from(_error: E) -> GameError {
        GameError::Memory
    }
}

/// Refuses more things than a game may have.
pub(crate) fn refuse_many(count: usize, most: usize, what: Thing) -> Result<(), GameError>
    ensures few { OnOk result (count ≤ most) }
    ensures many { OnErr result (most < count) }
    ensures error { IfErr result (λ error. error ≡ GameError.TooMany what) }
{
    if count > most {
        return Err(GameError::TooMany { what });
    }
    Ok(())
}
