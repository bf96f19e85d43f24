//! What comes next in a record.
ghost use Rattle.std.specs.Prelude.{◌≡◌, ◌↔◌, IsTrue};
ghost use Rattle.rbg_record.specs.Reading.{next_after};

use crate::{Entry, Version};

/// What comes next in a record.
#[derive(Clone, Copy)]
pub enum Next {
    Version,
    /// The players, in version 2.
    Players,
    /// The start, in version 2.
    Start,
    /// A move or the end, in a record of this version.
    Entry(Version),
    /// Nothing: the end was read.
    Nothing,
}

impl Next {
    /// What comes after an entry that was read when `self` was next.
    pub fn after(self, entry: &Entry) -> Next
        ensures { result ≡ next_after self entry.now }
    {
        match entry {
            Entry::Move { .. } => self,
            Entry::End { .. } => Next::Nothing,
        }
    }

    /// Whether the end was read.
    pub(crate) fn is_nothing(self) -> bool
        ensures { IsTrue result ↔ (self ≡ Next.Nothing) }
    {
        matches!(self, Next::Nothing)
    }
}
