//! The calls that read the first lines of a record. They allocate nothing.
ghost use Rattle.std.specs.Prelude.{◌≡◌, ◌↔◌, ℕ, List, IfSome, IsTrue, All};
ghost use Rattle.std.specs.Option.{IsSomeAnd};
ghost use Rattle.rbg_base.specs.Names.{is_name};
ghost use Rattle.rbg_wire.specs.Reads.{ReadsOnly};
ghost use Rattle.rbg_wire.specs.Words.{words_left, words_of};
ghost use Rattle.rbg_record.specs.Heading.{version_text, SpellsPlayers, SpellsStart};

use crate::{Start, Version};
use rbg_base::{is_name, number_of_decimal};
use rbg_wire::{Words, after_text, cut_number};

/// The version that the whole text spells.
///
/// Returns None if the text spells no version.
pub fn read_version(line: &[u8]) -> Option<Version>
    ensures { ReadsOnly (λ version. line.now ≡ version_text version) result }
{
    if line == b"rbg 1".as_slice() {
        Some(Version::One)
    } else if line == b"rbg 2".as_slice() {
        Some(Version::Two)
    } else {
        None
    }
}

/// The names of the players that the whole text spells. They are borrowed from it.
///
/// Returns None if the text spells no players.
pub fn read_players(line: &[u8]) -> Option<Words<'_>>
    // Names that are returned are those that the text spells.
    ensures found { IfSome result (λ names. SpellsPlayers line.now (words_left names)) }
    // If the text spells names, those names are returned.
    ensures only { (names : List (List ℕ))
        → SpellsPlayers line.now names
        → IsSomeAnd result (λ found. words_left found ≡ names) }
{
    let names = names_in(line)?;
    Some(Words::of(names))
}

/// The part of a text that has the names of the players, with a space between two. Returns None if the text spells no
/// players.
pub(crate) fn names_in(line: &[u8]) -> Option<&[u8]>
    ensures found { IfSome result (λ names. SpellsPlayers line.now (words_of names.now)) }
    ensures only { (names : List (List ℕ))
        → SpellsPlayers line.now names
        → IsSomeAnd result (λ found. words_of found.now ≡ names) }
{
    let text = after_text(b"players ", line)?;
    if are_names(text) { Some(text) } else { None }
}

// Whether the words between the spaces are names.
fn are_names(text: &[u8]) -> bool
    ensures { IsTrue result ↔ All (λ name. IsTrue (is_name name)) (words_of text.now) }
{
    Words::of(text).all(|name| is_name(name))
}

/// The start that the whole text spells.
///
/// Returns None if the text spells no start.
pub fn read_start(line: &[u8]) -> Option<Start>
    ensures { ReadsOnly (SpellsStart line.now) result }
{
    let fields = after_text(b"start ", line)?;
    let (turn_ms, now) = cut_number(fields)?;
    let now = number_of_decimal(now)?;
    Some(Start { turn_ms, now })
}
