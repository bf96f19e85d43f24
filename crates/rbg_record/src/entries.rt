//! The events that lead to an entry of a record.
ghost use Rattle.std.specs.Prelude.{◌≡◌, ◌++◌, IfOk, OnOk, Some, codes};
ghost use Rattle.rbg_record.specs.Entries.{EntryHasSpelling};
ghost use Rattle.rbg_wire.specs.Messages.{ArePairs, pairs_text};
ghost use Rattle.rbg_record.specs.Scripting.{end_events, events_in, move_events};
ghost use Rattle.rbg_record.specs.internal.Telling.{AppendsEvents};

use crate::entry::{Entry, Timed};
use rbg_base::{Memory, Move};
use rbg_script::{write_end, write_message, write_tick};
use rbg_wire::{Outcome, write_pairs};
use std::alloc::Global;

/// Appends the lines of the events that lead to an entry.
pub(crate) fn write_entry(alloc: Global, told: &Timed, out: &mut Vec<u8>) -> Result<(), Memory>
    requires { EntryHasSpelling told.now.entry }
    ensures { OnOk result (AppendsEvents (events_in told.now) out.old.items out.new.items) }
{
    match &told.entry {
        Entry::Move { player, pairs } => write_made(alloc, told.at, *player, pairs, out),
        Entry::End { outcome } => write_ended(told.at, *outcome, out),
    }
}

/// Appends the line of a move that a player makes. The keeper moves by itself.
fn write_made(
    alloc: Global,
    at: u64,
    player: u64,
    pairs: &Move,
    out: &mut Vec<u8>,
) -> Result<(), Memory>
    requires { ArePairs pairs.now }
    ensures { OnOk result (AppendsEvents (move_events at player pairs.now) out.old.items out.new.items) }
{
    if player == 0 {
        return Ok(());
    }
    let text = move_text(alloc, pairs)?;
    write_message(player, at, text.as_slice(), out)?;
    Ok(())
}

/// The message of a move, without its zero byte.
fn move_text(alloc: Global, pairs: &Move) -> Result<Vec<u8>, Memory>
    ensures { IfOk result (λ text. text.items ≡ codes "M" ++ pairs_text pairs.now) }
{
    let mut text = Vec::new(alloc);
    text.extend_from_slice(b"M")?;
    write_pairs(pairs.as_slice(), &mut text)?;
    Ok(text)
}

/// Appends the lines of the events by which a match ends with this outcome, if it doesn't end by itself.
fn write_ended(at: u64, outcome: Option<Outcome>, out: &mut Vec<u8>) -> Result<(), Memory>
    ensures { OnOk result (AppendsEvents (end_events at outcome) out.old.items out.new.items) }
{
    match outcome {
        None => write_tick(at, out),
        Some(outcome) => write_outcome(at, outcome, out),
    }
}

fn write_outcome(at: u64, outcome: Outcome, out: &mut Vec<u8>) -> Result<(), Memory>
    ensures { OnOk result (AppendsEvents (end_events at (Some outcome)) out.old.items out.new.items) }
{
    match outcome {
        Outcome::Finished { .. } => Ok(()),
        Outcome::Time { .. } => write_tick(at, out),
        Outcome::Refusals { player } => write_message(player, at, &[], out),
        Outcome::Gone { player } => write_end(player, at, out),
        Outcome::Heavy => Ok(()),
    }
}
