//! Why a text has no tokens.
ghost use Rattle.std.specs.Prelude.{◌≡◌};
ghost use Rattle.rbg_macro.specs.declared.text_error.TextError.TheVariants as text_errors;

use rbg_base::Memory;
use thiserror::Error;

/// Why a text has no tokens.
#[derive(Clone, Copy, Debug, PartialEq, Eq, Error)]
pub enum TextError {
    /// The text has more than `MAX_TEXT` bytes.
    #[error("the text is too long")]
    TooLong,
    /// There is a zero byte, between tokens or in a comment.
    #[error("the text has a zero byte")]
    ZeroByte,
    /// The byte at this offset begins no token.
    #[error("no token begins at byte {at}")]
    BadByte { at: usize },
    #[error("out of memory")]
    Memory,
}

/// An error of a refused allocation becomes `Memory`.
impl<E: Into<Memory> + Drop> From<E> for TextError {
    ghost from_gives = { λ _ e. e ≡ text_errors.Memory };

    fn from(_error: E) -> TextError {
        TextError::Memory
    }
}
