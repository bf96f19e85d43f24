//! The limits on expansions.

/// The maximum number of tokens that all expanded sections have together.
pub const MAX_KEPT: usize = 100_000;

/// The maximum number of tokens that are read while the sections are expanded.
pub const MAX_READ: usize = 1_000_000;

/// The maximum level of expansion: a section's own tokens are level 0, a macro's body is one above the list that calls
/// it.
pub const MAX_LEVEL: usize = 64;

/// The maximum length of a joined token, in bytes.
pub const MAX_JOINED: usize = 1_024;
