//! What every layer shares: names of the language, decimal numbers, the numbers of the things of a game, the operators
//! and relations of arithmetic, moves as they are written, and the error for a refused allocation.
#![tactic(auto)]

mod decimal;
mod error;
pub mod laws;
mod list;
mod moves;
mod names;
mod numbers;
mod operator;
mod pair;
mod relation;

pub use decimal::{number_of_decimal, number_of_digits};
pub use error::MoveLengthError;
pub use list::MoveList;
pub use moves::{MAX_PAIRS, Move};
pub use names::{is_name, is_name_part, is_name_start};
pub use numbers::{Direction, Piece, Player, Position, Variable, Vertex};
pub use operator::Operator;
pub use pair::Pair;
pub use relation::Relation;
pub use std::alloc::AllocError as Memory;
