//! Why a board is refused.
ghost use Rattle.std.specs.Prelude.{◌≡◌};
ghost use Rattle.rbg_board.specs.declared.error.BoardError.TheVariants.{Memory};

use rbg_base::Memory as OutOfMemory;
use thiserror::Error;

/// Why a generator refuses its arguments. Each generator documents the order in which it looks for faults.
#[derive(Clone, Copy, Debug, PartialEq, Eq, Error)]
pub enum BoardError {
    #[error("the board has no cell")]
    NoCell,
    /// The first row, counted from 0, whose length breaks the rule of the generator.
    #[error("row {row} has the wrong length")]
    RowLength { row: usize },
    #[error("the board has too many vertices")]
    TooManyVertices,
    #[error("one direction leads two ways")]
    SameDirection,
    #[error("an edge leads to a vertex that is not there")]
    UnknownVertex,
    #[error("two vertices have one name")]
    SameVertex,
    #[error("out of memory")]
    Memory,
}

/// An error of a refused allocation becomes `Memory`.
impl<E: Into<OutOfMemory> + Drop> From<E> for BoardError {
    ghost from_gives = { λ _ error. error ≡ Memory };

    fn from(_error: E) -> BoardError {
        BoardError::Memory
    }
}
