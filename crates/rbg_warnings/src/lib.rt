//! Passages of a text, which are the actions that the tokens of its rules spell, and lines with carets below a place;
//! and the warnings of a game for its author.
#![tactic(auto)]

mod action_warnings;
mod arithmetic;
mod excerpt;
mod named_thing;
mod rule_actions;
mod rule_warnings;
mod warning;

pub use excerpt::Excerpt;
pub use named_thing::NamedThing;
pub use rule_actions::{actions, push_action};
pub use rule_warnings::warnings;
pub use warning::Warning;
