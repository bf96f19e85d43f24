//! Why tokens have no expansion.
ghost use Rattle.std.specs.Prelude.{◌≡◌};
ghost use Rattle.rbg_macro.specs.declared.error.MacroError.TheVariants as macro_errors;

use rbg_base::Memory;
use thiserror::Error;

/// Why tokens have no expansion.
#[derive(Clone, Copy, Debug, PartialEq, Eq, Error)]
pub enum MacroError {
    /// The token at this offset doesn't fit into the head of a definition.
    #[error("the definition's head is wrong at byte {at}")]
    BadDefinition { at: usize },
    /// A second macro has the name at this offset.
    #[error("the macro at byte {at} is already defined")]
    Twice { at: usize },
    /// What follows the macro's name at this offset is no call with the macro's number of arguments.
    #[error("wrong number of arguments for the macro at byte {at}")]
    ArgumentCount { at: usize },
    /// The macro named at this offset would be expanded below the last level.
    #[error("the macro at byte {at} is nested too deep")]
    Depth { at: usize },
    /// More tokens are read or kept than the limits allow.
    #[error("the expansion has too many tokens")]
    TooManyTokens,
    /// The `~` at this offset joins no two tokens into a name or a number that isn't too long.
    #[error("the tokens beside byte {at} can't be joined")]
    BadJoin { at: usize },
    #[error("out of memory")]
    Memory,
}

/// An error of a refused allocation becomes `Memory`.
impl<E: Into<Memory> + Drop> From<E> for MacroError {
    ghost from_gives = { λ _ e. e ≡ macro_errors.Memory };

    fn from(_error: E) -> MacroError {
        MacroError::Memory
    }
}
