//! The server for editors: the language as an editor asks for it, and the messages between them.
#![tactic(auto)]

mod analysis;
mod answers;
mod completion;
mod definitions;
mod documents;
mod edits;
mod expansion;
mod frames;
mod hover;
mod judge;
mod kinds;
mod layout;
mod lines;
mod message_fields;
mod new_names;
mod notices;
mod outline;
mod questions;
mod references;
mod reply;
mod sections;
mod server;
mod session;
mod walk;
mod words;

pub use frames::FramingError;
pub use judge::Judge;
pub use layout::formatted;
pub use session::{End, serve};
