//! What is reported to authors of games: why it is refused, with the line and the place, where its positions and
//! vertices are, and what they are warned of.
#![tactic(auto)]

mod boards;
mod brackets;
mod calls;
mod codes;
mod diagnosed;
mod doubted;
mod drawing_comments;
mod exact;
mod explanation;
mod foreign_comments;
mod forgotten;
mod hints;
mod joined;
mod listed;
mod meant;
mod message;
mod notes;
mod place;
mod spot;
mod traced;
mod warned;
mod words;

pub use diagnosed::diagnostics;
pub use explanation::explain;
pub use listed::{push_positions, push_vertices};
pub use rbg_lint::{Diagnostic, File, Related, Severity, push_diagnostics, push_json};
pub use warned::game_warnings;
