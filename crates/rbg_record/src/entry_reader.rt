//! The calls that read an entry. They allocate nothing.
ghost use Rattle.std.specs.Prelude.{◌≡◌, ℕ, List, IfSome, IfNone};
ghost use Rattle.rbg_wire.specs.Reads.{ReadsOnly};
ghost use Rattle.rbg_record.specs.declared.entry.Timed.{Timed as AnyTimed};
ghost use Rattle.rbg_record.specs.Entries.{SpellsEntry, SpellsIn, SpellsTimed, unwritten_moment};

use crate::{Entry, Timed, Version};
use rbg_wire::{Outcome, cut_number, read_outcome, read_pairs};

/// The entry that the whole text spells.
///
/// Returns None if the text spells no entry. More than 200 pairs are no entry.
pub fn read_entry(line: &[u8]) -> Option<Entry>
    ensures { ReadsOnly (SpellsEntry line.now) result }
{
    if line == b"-".as_slice() {
        return Some(Entry::End { outcome: None });
    }
    if let Ok(outcome) = read_outcome(line) {
        return Some(Entry::End {
            outcome: Some(outcome),
        });
    }
    move_in(line)
}

/// The entry with its moment that the whole text spells.
///
/// Returns None if the text spells no entry with a moment.
pub fn read_timed(line: &[u8]) -> Option<Timed>
    ensures { ReadsOnly (SpellsTimed line.now) result }
{
    let (at, entry) = cut_number(line)?;
    let entry = read_entry(entry)?;
    Some(Timed { at, entry })
}

fn move_in(line: &[u8]) -> Option<Entry>
    ensures found { IfSome result (SpellsEntry line.now) }
    ensures none { IfNone result ((player : ℕ) (pairs : List (ℕ × ℕ))
        → SpellsEntry line.now (Entry.Move player pairs)
        → ⊥) }
{
    let (player, pairs) = cut_number(line)?;
    let pairs = read_pairs(pairs).ok()?;
    Some(Entry::Move { player, pairs })
}

/// The entry of a line in a record of that version. In version 1, which writes no moments, it gets one: 1 for a time
/// that is over, and 0 for any other entry.
pub(crate) fn read_in(version: Version, text: &[u8]) -> Option<Timed>
    ensures found { IfSome result (SpellsIn version text.now) }
    ensures none { IfNone result ((told : AnyTimed) → ¬ SpellsIn version text.now told) }
{
    match version {
        Version::One => {
            let entry = read_entry(text)?;
            Some(Timed {
                at: unwritten(&entry),
                entry,
            })
        }
        Version::Two => read_timed(text),
    }
}

/// The moment of an entry that is written without one: 1 for a time that is over, and 0 for any other entry.
fn unwritten(entry: &Entry) -> u64
    ensures { result ≡ unwritten_moment entry.now }
{
    match entry {
        Entry::End {
            outcome: Some(Outcome::Time { .. }),
        } => 1,
        _ => 0,
    }
}
