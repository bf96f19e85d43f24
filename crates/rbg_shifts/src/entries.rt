//! Entries in a list.
ghost use Rattle.std.specs.Prelude.{◌≡◌, ℕ, All, IfSome, IfNone, slice_index_or};
ghost use Rattle.rbg_shifts.specs.Entries.{IsWithin};
ghost use Rattle.rbg_shifts.specs.Made.{no_entry};

use crate::table::Entry;

/// The entry in a place, if it is there. A caller that only reads it need not copy it: a copy is one word, from which
/// each part would be cut.
#[inline(always)]
pub(crate) fn find_entry(entries: &[Entry], place: usize) -> Option<&Entry>
    ensures some { IfSome result (λ entry. entry.now ≡ slice_index_or entries.now place no_entry) }
    ensures within { (size : ℕ) → All (IsWithin size) entries.now
        → IfSome result (λ entry. IsWithin size entry.now) }
    ensures none { IfNone result (slice_index_or entries.now place no_entry ≡ no_entry) }
{
    if place < entries.len() {
        Some(&entries[place])
    } else {
        None
    }
}

/// The entry in a place, or an empty one if it isn't there.
#[inline(always)]
pub(crate) fn entry_in_place(entries: &[Entry], place: usize) -> Entry
    ensures entry { result ≡ slice_index_or entries.now place no_entry }
    ensures within { (size : ℕ) → All (IsWithin size) entries.now → IsWithin size result }
{
    if place < entries.len() {
        entries[place]
    } else {
        Entry::NONE
    }
}
