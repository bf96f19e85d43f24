//! What the programs share: reading and writing, files and new ones, words, statuses, counts, printed refusals, what
//! short lines mean, and command lines as tables, from which both programs' commands are made.
#![tactic(auto)]

mod argument;
mod command;
mod command_line;
mod counts;
mod files;
mod input;
mod meaning;
mod memory;
mod note;
mod output;
mod records;
mod refusal;
mod status;
mod system;

pub use argument::{Argument, GAME, Kind, RECORD, Value};
pub use command::{CommandWords, add_commands};
pub use command_line::{WordsError, match_words, write_words};
pub use counts::count_line;
pub use files::{Files, fill_file, read_bytes};
pub use input::{Input, MAX_INPUT, read_input};
pub use meaning::meaning_of;
pub use memory::MemoryFiles;
pub use note::Note;
pub use output::write_text;
pub use records::{read_record, read_record_input};
pub use refusal::Refusal;
pub use status::Status;
pub use system::{SystemFiles, words};
