//! A match of a description: the events of a script are handled in order, and all messages are queued; and from the
//! bytes of an input to the bytes that are printed.
#![tactic(auto)]

mod answer;
mod error;
mod input_error;
pub mod input_laws;
pub mod laws;
mod printed;
mod printed_match;
mod refereeing;
mod run;
mod script_config;

pub use answer::{
    Answer, answer_device, answer_fault, answer_input, answer_line, answer_refused, answer_script,
    write_answer,
};
pub use error::RefereeError;
pub use input_error::RefereeingError;
pub use printed::{match_lines, push_seat};
pub use printed_match::{play_script, referee_input, referee_texts};
pub use refereeing::{referee, referee_match};
pub use run::run_referee;
pub use script_config::config_of;
