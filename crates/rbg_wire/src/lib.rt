//! Messages and streams: which bytes spell which message, and which messages a stream of bytes contains, however it is
//! cut into pieces.
#![tactic(auto)]

mod bytes;
mod cursor;
mod error;
mod inbox;
pub mod laws;
mod message;
mod message_reader;
mod message_writer;
mod move_reader;
mod number_reader;
mod outcome;
mod outcome_reader;
mod scores;
mod undo;
mod words;

pub use bytes::{after_text, cut_at};
pub use error::WireError;
pub use inbox::{Inbox, Took};
pub use message::{Message, Reason};
pub use message_reader::read_message;
pub use message_writer::{
    put_number, write_message, write_move, write_number, write_outcome, write_pairs,
};
pub use move_reader::{read_move, read_pairs};
pub use number_reader::{cut_number, read_number};
pub use outcome::Outcome;
pub use outcome_reader::read_outcome;
pub use scores::{MAX_SCORES, Scores};
pub use undo::all_or_nothing;
pub use words::Words;
