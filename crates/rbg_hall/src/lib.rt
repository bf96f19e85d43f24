//! A whole hall: tables and lines together. What a line sends is heard by the table that its first message asks for,
//! and by no other; the clock is heard by all. Each table plays as if it stood alone, and may have a log of its match.
#![tactic(auto)]

mod due;
mod ending;
mod engine;
mod error;
mod events;
mod hall;
mod hall_table;
mod hearing;
mod input;
mod kept_table;
pub mod laws;
mod line;
pub mod log_laws;
mod noting;
mod numbered;
mod opening;
mod queues;
mod request;
mod running;
mod serving;
mod speaking;
mod standing;
mod table;
pub mod table_laws;
mod whole;

pub use error::HallError;
pub use hall::{Hall, TABLES};
pub use queues::{HallOut, LINES};
pub use table::Table;
pub use whole::whole_hall;
