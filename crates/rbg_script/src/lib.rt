//! The lines of a script of a match: its config and its events, each on a line. A piece of a seat's stream is written as
//! text or in hexadecimal digits.
#![tactic(auto)]

mod config;
mod config_reader;
mod error;
mod event;
mod event_reader;
mod fields;
mod input;
pub mod laws;
mod lending;
mod script;
mod writer;

pub use config::ScriptConfig;
pub use config_reader::read_config;
pub use error::ScriptError;
pub use event::{Event, ScriptMessage};
pub use event_reader::{read_event, read_message};
pub use input::{TwoTexts, cut_at_mark};
pub use lending::lend_events;
pub use script::{Script, read_script};
pub use writer::{
    write_config, write_end, write_event, write_item, write_message, write_piece, write_tick,
};
