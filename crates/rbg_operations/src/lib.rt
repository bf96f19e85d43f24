//! The commands that answer from files alone, each a module: `check`, `replay`, `migrate`, `moves`, and `referee` with
//! a file or a record, from the bytes of files to the bytes that are printed.
#![tactic(auto)]

mod after;
mod answer;
mod check;
pub mod laws;
mod lines;
mod listing_lines;
mod loading;
mod migrate;
mod moves;
mod on_record;
mod opened;
mod opening;
mod place;
mod reading;
mod record_run;
mod recording;
mod referee;
mod replay;
mod run;
mod telling;
mod texts;

pub use after::moves_beyond;
pub use check::run_check;
pub use lines::answer_form;
pub use migrate::run_migrate;
pub use moves::run_moves_after;
pub use record_run::{RecordedFiles, run_recorded};
pub use recording::{Recorded, referee_recorded};
pub use referee::run_match;
pub use replay::run_replay;
pub use run::run_moves;
