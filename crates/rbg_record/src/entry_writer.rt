//! The calls that write an entry as a line, with its moment in version 2, at the end of a list of bytes.
ghost use Rattle.std.specs.Prelude.{◌++◌};
ghost use Rattle.rbg_wire.specs.Writing.{Appends, AppendsAll};
ghost use Rattle.rbg_wire.specs.Lines.{line_of};
ghost use Rattle.rbg_record.specs.declared.entry.Entry.TheVariants.{Move as MoveEntry, End as EndEntry};
ghost use Rattle.rbg_record.specs.Entries.{entry_text, moment_text};

use rbg_base::{Memory, Move};
use rbg_wire::{Outcome, all_or_nothing, write_number, write_outcome, write_pairs};

/// Appends the line of a move, with its moment if there is one. On an error the bytes are unchanged.
pub fn write_move_line(
    at: Option<u64>,
    player: u64,
    pairs: &Move,
    out: &mut Vec<u8>,
) -> Result<(), Memory>
    ensures { AppendsAll out.old.items out.new.items
        (line_of (moment_text at ++ entry_text (MoveEntry player pairs.now))) result }
{
    let len = out.len();
    let written = put_move(at, player, pairs, out);
    all_or_nothing(written, len, out)
}

/// Appends the line of the end, with its moment if there is one. On an error the bytes are unchanged.
pub fn write_end_line(
    at: Option<u64>,
    outcome: Option<Outcome>,
    out: &mut Vec<u8>,
) -> Result<(), Memory>
    ensures { AppendsAll out.old.items out.new.items
        (line_of (moment_text at ++ entry_text (EndEntry outcome))) result }
{
    let len = out.len();
    let written = put_end(at, outcome, out);
    all_or_nothing(written, len, out)
}

#[tactic(auto, unfolding(crate::specs::Entries::entry_text))]
fn put_move(at: Option<u64>, player: u64, pairs: &Move, out: &mut Vec<u8>) -> Result<(), Memory>
    ensures { Appends out.old.items out.new.items
        (line_of (moment_text at ++ entry_text (MoveEntry player pairs.now))) result }
{
    put_moment(at, out)?;
    write_number(player, out)?;
    out.extend_from_slice(b" ")?;
    write_pairs(pairs.as_slice(), out)?;
    out.extend_from_slice(b"\n")
}

fn put_end(at: Option<u64>, outcome: Option<Outcome>, out: &mut Vec<u8>) -> Result<(), Memory>
    ensures { Appends out.old.items out.new.items
        (line_of (moment_text at ++ entry_text (EndEntry outcome))) result }
{
    put_moment(at, out)?;
    put_last(outcome, out)?;
    out.extend_from_slice(b"\n")
}

#[tactic(auto, unfolding(crate::specs::Entries::entry_text))]
fn put_last(outcome: Option<Outcome>, out: &mut Vec<u8>) -> Result<(), Memory>
    ensures { Appends out.old.items out.new.items (entry_text (EndEntry outcome)) result }
{
    match outcome {
        None => out.extend_from_slice(b"-"),
        Some(outcome) => write_outcome(&outcome, out),
    }
}

fn put_moment(at: Option<u64>, out: &mut Vec<u8>) -> Result<(), Memory>
    ensures { Appends out.old.items out.new.items (moment_text at) result }
{
    match at {
        None => Ok(()),
        Some(at) => {
            write_number(at, out)?;
            out.extend_from_slice(b" ")
        }
    }
}
