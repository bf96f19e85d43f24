//! Leaps: where shifts alone lead in a game, as a table that is made once.
#![tactic(auto)]

mod adding;
mod asking;
mod branches;
mod closing;
mod entries;
mod filling;
mod gathering;
mod ground;
mod interner;
mod laying;
mod lists;
mod making;
mod origin;
mod rounds;
mod setting;
mod shifts;
mod table;
mod target;

pub use asking::Leaps;
pub use making::{MAX_WORDS, leaps};
pub use origin::Origin;
pub use target::Target;
