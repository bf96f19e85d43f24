//! Matches and halls that are served: with a log or with none, going on from one that was cut off, from a script, and
//! over connections.
#![tactic(auto)]

mod again;
mod answer;
mod archive;
mod beginning;
mod bounded;
mod cut;
mod error;
mod fault;
mod going_on;
mod hearing;
mod in_play;
mod joining;
mod keeping_serving;
pub mod laws;
mod names;
mod past;
mod preparing;
mod printed;
mod reading;
mod record;
mod recorded_hall;
mod recorder;
mod replay;
mod resuming;
mod run;
mod script;
mod seats;
mod serving;
mod tables;
mod task;

pub use again::resume_match;
pub use answer::answer_hall;
pub use beginning::{NewMatch, serve_lines};
pub use cut::run_cut;
pub use error::HostingError;
pub use fault::ServingFault;
pub use going_on::{ResumedHall, resume_hall};
pub use hearing::hall_texts;
pub use keeping_serving::serve_match;
pub use record::keep_record;
pub use run::{run_hall_script, serve_files};
pub use script::run_script;
pub use serving::serve_hall;
pub use task::{Keeping, NOTHING_KEPT, Serving};
