//! Making version 2 of a record of version 1.
ghost use Rattle.std.specs.Prelude.{◌≡◌, ◌++◌, ◌↔◌, ℕ, List, Err, IfErr, IfOk, OnOk};
ghost use Rattle.rbg_record.specs.Entries.{timed_text};
ghost use Rattle.rbg_record.specs.Heading.{version_text};
ghost use Rattle.rbg_record.specs.Reading.{HasContent};
ghost use Rattle.rbg_wire.specs.Lines.{line_of, lines_of};
ghost use Rattle.rbg_record.specs.Migration.{IsMigrated, IsPlainFault};
ghost use Rattle.rbg_record.specs.Right.{IsRightRecord};
ghost use Rattle.rbg_record.specs.internal.Migrating.{IsPlainNext, IsPlainRefusal, MigratesLine, RefusesPlain, RefusesVersion, head_texts};

use crate::RecordError;
use crate::entry::{Entry, Timed};
use crate::entry_writer::{write_end_line, write_move_line};
use crate::heading::{Start, Version};
use crate::heading_writer::{write_start, write_version};
use crate::line::{Content, RecordLine};
use crate::next::Next;
use crate::players::write_players;
use crate::reader::RecordReader;
use rbg_base::Memory;
use rbg_rules::Game;
use std::alloc::Global;

/// Makes version 2 of a record of version 1. In it a turn lasts for one millisecond, the match begins at moment 0, and
/// everything happens at moment 0, except that a time that is over ends at moment 1.
/// Only the form is checked, so a record that isn't right is migrated too. No question is asked of the rules.
pub fn migrate(alloc: Global, game: &Game, bytes: &[u8]) -> Result<Vec<u8>, RecordError>
    ensures migrated { IfOk result (λ new. IsMigrated game.now bytes.now new.items) }
    ensures right { IfOk result (λ new.
        IsRightRecord game.now new.items ↔ IsRightRecord game.now bytes.now) }
    ensures form { (line : ℕ) → result ≡ Err (RecordError.Form line) → IsPlainFault bytes.now line }
    ensures never_over { (line : ℕ) → ¬ (result ≡ Err (RecordError.Over line)) }
{
    migrate_lines(alloc, game, bytes)
}

fn migrate_lines(alloc: Global, game: &Game, bytes: &[u8]) -> Result<Vec<u8>, RecordError>
    ensures migrated { IfOk result (λ new. IsMigrated game.now bytes.now new.items) }
    ensures refused { IfErr result (IsPlainRefusal bytes.now) }
{
    game.is_accepted();
    let mut out = Vec::new(alloc);
    let mut reader = RecordReader::new(bytes);
    let mut next = Next::Version;
    while let Some(line) = reader.read(next)? {
        next = migrate_line(game, next, &line, &mut out)?;
    }
    Ok(out)
}

/// Appends a line as version 2 has it, and returns what comes next. Only version 1 is migrated.
fn migrate_line(
    game: &Game,
    next: Next,
    line: &RecordLine<'_>,
    out: &mut Vec<u8>,
) -> Result<Next, RecordError>
    requires plain { IsPlainNext next }
    requires says { HasContent next line.now.text.now line.now.content }
    ensures migrates { IfOk result (λ to.
        MigratesLine game.now next line.now.text.now to out.old.items out.new.items) }
    ensures refused { IfErr result (RefusesPlain line.now) }
{
    match &line.content {
        Content::Version(version) => begin(game, *version, line.number, out),
        Content::Entry(told) => {
            write_entry(told, out)?;
            Ok(next.after(&told.entry))
        }
        Content::Players(_) => Err(RecordError::Form { line: line.number }),
        Content::Start(_) => Err(RecordError::Form { line: line.number }),
    }
}

/// Appends the first lines, if this line has version 1.
fn begin(game: &Game, version: Version, line: usize, out: &mut Vec<u8>) -> Result<Next, RecordError>
    ensures migrates { IfOk result (λ to. (text : List ℕ) → text ≡ version_text version
        → MigratesLine game.now Next.Version text to out.old.items out.new.items) }
    ensures refused { IfErr result (RefusesVersion version line) }
{
    match version {
        Version::One => {
            write_head(game, out)?;
            Ok(Next::Entry(Version::One))
        }
        Version::Two => Err(RecordError::Form { line }),
    }
}

/// Appends the first lines of version 2.
fn write_head(game: &Game, out: &mut Vec<u8>) -> Result<(), Memory>
    ensures { OnOk result (out.new.items ≡ out.old.items ++ lines_of (head_texts game.now)) }
{
    write_version(Version::Two, out)?;
    write_players(game, out)?;
    write_start(Start { turn_ms: 1, now: 0 }, out)
}

/// Appends a move or the end with its moment.
fn write_entry(told: &Timed, out: &mut Vec<u8>) -> Result<(), Memory>
    ensures { OnOk result (out.new.items ≡ out.old.items ++ line_of (timed_text told.now)) }
{
    match &told.entry {
        Entry::Move { player, pairs } => write_move_line(Some(told.at), *player, pairs, out),
        Entry::End { outcome } => write_end_line(Some(told.at), *outcome, out),
    }
}
