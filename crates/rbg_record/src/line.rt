//! A line of a record.

use crate::{Start, Timed, Version};

/// The contents of a line of a record.
#[derive(Drop)]
pub enum Content<'a> {
    Version(Version),
    /// The names of the players, with a space between two.
    Players(&'a [u8]),
    Start(Start),
    /// A move or the end. In version 1, which writes no moments, its moment is 1 for a time that is over, and else 0.
    Entry(Timed),
}

/// A line of a record.
#[derive(Drop)]
pub struct RecordLine<'a> {
    /// Its number. Lines are numbered from 1.
    pub number: usize,
    /// Its text, without the line feed.
    pub text: &'a [u8],
    pub content: Content<'a>,
}
