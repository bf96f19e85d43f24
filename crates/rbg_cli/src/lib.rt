//! The program `rbg`: its commands as one type with their files, the command lines that ask for them, and what a run of
//! its words is.
#![tactic(auto)]

mod ask;
mod choice;
mod client;
mod command;
mod command_line;
mod connecting;
mod demo;
mod devices;
mod fault;
mod hall;
mod inputs;
mod output;
mod play;
mod played_line;
mod player_refusal;
mod printed;
mod program;
mod reading;
mod serve;
mod words;

pub use devices::Devices;
pub use program::run;
pub use rbg_console::{Files, Input, Note, Status};
pub use rbg_network::{Archive, Network, News, SystemClock, SystemNetwork};
pub use rbg_serving::{Clock, Log, LogFailure, Pause};
