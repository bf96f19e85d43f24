//! The verdict on a record that was read whole.

/// The verdict on a record that was read whole. Lines are numbered from 1.
#[derive(Clone, Copy)]
pub enum Checked {
    /// The record is right.
    Good,
    /// The lines before this one are right, and it is of the form; but it isn't right after them.
    Bad { line: usize },
}
