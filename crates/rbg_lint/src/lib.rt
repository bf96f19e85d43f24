//! Diagnostics for the author of a text: where each token comes from, names that are like others, doubtful rules, and
//! how they are printed, as text or as lines for editors.
#![tactic(auto)]

mod among;
mod brackets;
mod constants;
mod definition;
mod diagnostic;
mod distance;
mod doubt;
mod expansion;
mod item;
mod json;
mod keeper_search;
mod look;
mod message_writer;
mod misspelt_sections;
mod names;
mod parameters;
mod printed_lines;
mod signs;
mod stars;
mod stray_characters;
mod sums;
mod unrolled;
mod unroller;

pub use among::{
    before_first, count_names, from_last, has_text, holds_offset, index_of, is_at, nth_name,
    offset_of, start_of,
};
pub use brackets::{
    is_balanced, is_balanced_around, is_section_balanced, push_unbalanced, relate_bracket,
};
pub use definition::{Definition, definitions, is_section};
pub use diagnostic::{Diagnostic, Related, Severity};
pub use doubt::{Doubt, doubts};
pub use expansion::{cut, expanded, push_tokens, section_tokens};
pub use json::push_json;
pub use look::{Look, push_warnings};
pub use message_writer::{MessageWriter, line_and_column};
pub use misspelt_sections::misspelt_section;
pub use names::{NameKind, after_head, kind_of, nearest_macro, nearest_name, rest_after_head};
pub use printed_lines::{File, push_diagnostics};
pub use stray_characters::{StrayCharacter, stray_character_at};
pub use unrolled::{TokenOrigin, Unrolled, unroll};
