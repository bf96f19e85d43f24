//! Why pairs are no move.

use thiserror::Error;

/// There is no pair, or there are more than 200.
#[derive(Clone, Copy, Debug, PartialEq, Eq, Error)]
#[error("a move has 1 to 200 pairs")]
pub struct MoveLengthError;
