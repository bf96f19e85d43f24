//! Matches over connections: the network as the programs see it, the system's own, the lines of a match over streams,
//! how its players are waited for, what is kept of it, and what its organiser is told.
#![tactic(auto)]

mod archive;
mod client_error;
mod game_file;
mod gathering;
pub mod laws;
mod moments;
mod named_log;
mod network;
mod news;
mod passing;
mod readiness;
mod seating;
mod stream_line;
mod system_archive;
mod system_clock;
mod system_file;
mod system_log;
mod system_network;
mod system_stream;
mod watch;

pub use archive::Archive;
pub use client_error::ClientError;
pub use game_file::{Naming, read_game, spell_game};
pub use gathering::{GatherError, Hosting, gather};
pub use named_log::{Named, begin_log, take_log};
pub use network::{Network, is_nothing_yet};
pub use news::{MatchNews, News};
pub use seating::{LinePlace, seat_players};
pub use stream_line::StreamLine;
pub use system_archive::SystemArchive;
pub use system_clock::SystemClock;
pub use system_log::SystemLog;
pub use system_network::{SystemListener, SystemNetwork};
pub use system_stream::SystemStream;
