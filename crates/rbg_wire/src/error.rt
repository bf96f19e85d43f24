//! Why a text is refused.

use thiserror::Error;

/// Why a text is not a message, or not a field of one.
#[derive(Clone, Copy, Debug, PartialEq, Eq, Error)]
pub enum WireError {
    /// The text does not follow the grammar.
    #[error("not of the grammar")]
    Malformed,
    /// The text follows the grammar, but has more than 200 pairs.
    #[error("more than 200 pairs")]
    TooManyPairs,
}
