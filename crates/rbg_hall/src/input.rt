//! What a table hears.

use rbg_wire::Took;

/// What a table hears. Lines are numbered from 0, and moments are in milliseconds.
#[derive(Clone, Copy)]
pub(crate) enum TableInput<'a> {
    /// The clock shows a moment.
    Clock { at: u64 },
    /// The first message of a line asks for this table.
    Joins { line: u64, at: u64 },
    /// A piece of a line that asked for this table has come.
    Arrives { line: u64, at: u64 },
    /// Such a line has completed an item after its first one.
    Says { line: u64, at: u64, took: Took<'a> },
    /// Such a line has ended.
    Leaves { line: u64, at: u64 },
}
