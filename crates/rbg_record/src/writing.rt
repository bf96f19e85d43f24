//! Writing the record of a match.
ghost use Rattle.std.specs.Prelude.{◌≡◌, ◌++◌, OnOk};
ghost use Rattle.std.specs.List.{flat_map};
ghost use Rattle.rbg_wire.specs.Lines.{line_of};
ghost use Rattle.rbg_record.specs.OfMatch.{WritesRecord, record_of, plain_record_of};
ghost use Rattle.rbg_record.specs.Records.{plain, timed};
ghost use Rattle.rbg_record.specs.internal.Written.{entries_bytes, made_text, entry_moment};

use crate::entry_writer::{write_end_line, write_move_line};
use crate::heading::{Start, Version};
use crate::heading_writer::{write_start, write_version};
use crate::players::write_players;
use rbg_base::Memory;
use rbg_match::{Made, Match};
use std::alloc::Global;

/// The record of a match, in version 2.
pub fn write_record(alloc: Global, played: &Match) -> Result<Vec<u8>, Memory>
    ensures { WritesRecord played.now (timed (record_of played.now)) result }
{
    // The game is lawful.
    let _players = played.players();
    let mut out = Vec::new(alloc);
    write_version(Version::Two, &mut out)?;
    write_players(played, &mut out)?;
    let start = Start {
        turn_ms: played.config().turn_ms,
        now: played.began(),
    };
    write_start(start, &mut out)?;
    write_entries(Version::Two, played, &mut out)?;
    Ok(out)
}

/// The record of a match, in version 1.
pub fn write_record_1(alloc: Global, played: &Match) -> Result<Vec<u8>, Memory>
    ensures { WritesRecord played.now (plain (plain_record_of played.now)) result }
{
    // The game is lawful.
    let _players = played.players();
    let mut out = Vec::new(alloc);
    write_version(Version::One, &mut out)?;
    write_entries(Version::One, played, &mut out)?;
    Ok(out)
}

// Appends the lines of the moves and of the end, with their moments in version 2.
fn write_entries(version: Version, played: &Match, out: &mut Vec<u8>) -> Result<(), Memory>
    ensures { OnOk result (out.new.items ≡ out.old.items ++ entries_bytes version played.now) }
{
    write_moves(version, played.made(), out)?;
    write_end_line(moment_in(version, played.moment()), played.outcome(), out)
}

fn write_moves(version: Version, moves: &[Made], out: &mut Vec<u8>) -> Result<(), Memory>
    ensures { OnOk result
        (out.new.items ≡ out.old.items
        ++ flat_map (λ made. line_of (made_text version made)) moves.now) }
{
    for made in moves {
        write_move_line(
            moment_in(version, made.at),
            u64::from(made.player),
            &made.pairs,
            out,
        )?;
    }
    Ok(())
}

// The moment as a version writes it: version 1 has none.
fn moment_in(version: Version, at: u64) -> Option<u64>
    ensures { result ≡ entry_moment version at }
{
    match version {
        Version::One => None,
        Version::Two => Some(at),
    }
}
