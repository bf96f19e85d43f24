//! The limit on texts.

/// The maximum length of a text, in bytes.
pub const MAX_TEXT: usize = 262_144;
