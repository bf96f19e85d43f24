//! Why a text is no game.
ghost use Rattle.std.specs.Prelude.{◌≡◌, ◌↔◌, IsTrue};
ghost use Rattle.rbg_game.specs.declared.error.LoadError.TheVariants as load_errors;
ghost use Rattle.rbg_game.specs.Loading.{IsMemory};

use crate::game_error::GameError;
use rbg_macro::{MacroError, TextError};
use rbg_syntax::SyntaxError;
use std::fmt;
use thiserror::Error;

/// Why a text is no game, by the layer that refuses it.
#[derive(Clone, Copy, Debug, PartialEq, Eq, Error)]
pub enum LoadError {
    #[error("{0}")]
    Text(TextError),
    #[error("{0}")]
    Macro(MacroError),
    #[error("{0}")]
    Syntax(SyntaxError),
    #[error("{0}")]
    Game(GameError),
}

impl From<TextError> for LoadError {
    ghost from_gives = { λ cause error. error ≡ load_errors.Text cause };

    fn from(cause: TextError) -> LoadError {
        LoadError::Text(cause)
    }
}

impl From<MacroError> for LoadError {
    ghost from_gives = { λ cause error. error ≡ load_errors.Macro cause };

    fn from(cause: MacroError) -> LoadError {
        LoadError::Macro(cause)
    }
}

impl From<SyntaxError> for LoadError {
    ghost from_gives = { λ cause error. error ≡ load_errors.Syntax cause };

    fn from(cause: SyntaxError) -> LoadError {
        LoadError::Syntax(cause)
    }
}

impl From<GameError> for LoadError {
    ghost from_gives = { λ cause error. error ≡ load_errors.Game cause };

    fn from(cause: GameError) -> LoadError {
        LoadError::Game(cause)
    }
}

impl LoadError {
    /// Whether some layer ran out of memory.
    pub fn is_memory(&self) -> bool
        ensures { IsTrue result ↔ IsMemory self.now }
    {
        matches!(
            self,
            LoadError::Text(TextError::Memory)
                | LoadError::Macro(MacroError::Memory)
                | LoadError::Syntax(SyntaxError::Memory)
                | LoadError::Game(GameError::Memory)
        )
    }
}
