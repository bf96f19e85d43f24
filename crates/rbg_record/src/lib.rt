//! Records of matches: their lines, whether a record is right, how one of version 1 becomes one of version 2, and the
//! script of a record. A line of version 2 with a move or the end is a moment, a space and such a line of version 1.
#![tactic(auto)]

mod asking;
mod checked;
mod checking;
mod cutting;
mod entries;
mod entry;
mod entry_reader;
mod entry_writer;
mod error;
mod fault;
mod form_error;
mod heading;
mod heading_reader;
mod heading_writer;
pub mod laws;
mod line;
pub mod line_laws;
mod making;
mod migrating;
mod moments;
mod next;
mod players;
mod reached;
mod reaching;
mod reader;
mod reading;
mod script_error;
mod script_writing;
mod writing;

pub use checked::Checked;
pub use checking::check_record;
pub use entry::{Entry, Timed};
pub use entry_reader::{read_entry, read_timed};
pub use entry_writer::{write_end_line, write_move_line};
pub use error::RecordError;
pub use fault::{LineFault, Misfit};
pub use form_error::FormError;
pub use heading::{Start, Version};
pub use heading_reader::{read_players, read_start, read_version};
pub use heading_writer::{begin_players, end_line, write_player, write_start, write_version};
pub use line::{Content, RecordLine};
pub use making::script_of_record;
pub use migrating::migrate;
pub use next::Next;
pub use reached::{MatchSoFar, Reached};
pub use reaching::place_after;
pub use reader::RecordReader;
pub use reading::judge_line;
pub use script_error::ScriptingError;
pub use script_writing::write_script;
pub use writing::{write_record, write_record_1};
