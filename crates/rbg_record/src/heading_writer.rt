//! The calls that write the first lines of a record at the end of a list of bytes.
ghost use Rattle.std.specs.Prelude.{◌++◌, [], ◌∷◌, codes};
ghost use Rattle.rbg_wire.specs.Writing.{Appends, AppendsAll};
ghost use Rattle.rbg_wire.specs.Lines.{line_of, line_feed};
ghost use Rattle.rbg_record.specs.Heading.{players_text, start_text, version_text};

use crate::{Start, Version};
use rbg_base::Memory;
use rbg_wire::{all_or_nothing, put_number};

/// Appends the line of a version. On an error the bytes are unchanged.
#[tactic(auto, unfolding(crate::specs::Heading::version_text))]
pub fn write_version(version: Version, out: &mut Vec<u8>) -> Result<(), Memory>
    ensures { AppendsAll out.old.items out.new.items (line_of (version_text version)) result }
{
    match version {
        Version::One => out.extend_from_slice(b"rbg 1\n"),
        Version::Two => out.extend_from_slice(b"rbg 2\n"),
    }
}

/// Begins the line of the players. Each is written by `write_player`, and `end_line` ends it. On an error the bytes are
/// unchanged.
pub fn begin_players(out: &mut Vec<u8>) -> Result<(), Memory>
    ensures { AppendsAll out.old.items out.new.items (players_text []) result }
{
    out.extend_from_slice(b"players")
}

/// Appends the name of the next player to the line of the players. On an error the bytes are unchanged.
pub fn write_player(name: &[u8], out: &mut Vec<u8>) -> Result<(), Memory>
    ensures { AppendsAll out.old.items out.new.items (codes " " ++ name.now) result }
{
    let len = out.len();
    let written = put_name(name, out);
    all_or_nothing(written, len, out)
}

/// Ends a line. On an error the bytes are unchanged.
pub fn end_line(out: &mut Vec<u8>) -> Result<(), Memory>
    ensures { AppendsAll out.old.items out.new.items (line_feed ∷ []) result }
{
    out.extend_from_slice(b"\n")
}

/// Appends the line of a start. On an error the bytes are unchanged.
pub fn write_start(start: Start, out: &mut Vec<u8>) -> Result<(), Memory>
    ensures { AppendsAll out.old.items out.new.items (line_of (start_text start)) result }
{
    let len = out.len();
    let written = put_start(start, out);
    all_or_nothing(written, len, out)
}

fn put_name(name: &[u8], out: &mut Vec<u8>) -> Result<(), Memory>
    ensures { Appends out.old.items out.new.items (codes " " ++ name.now) result }
{
    out.extend_from_slice(b" ")?;
    out.extend_from_slice(name)
}

#[tactic(auto, unfolding(crate::specs::Heading::start_text))]
fn put_start(start: Start, out: &mut Vec<u8>) -> Result<(), Memory>
    ensures { Appends out.old.items out.new.items (line_of (start_text start)) result }
{
    put_number(b"start ", start.turn_ms, out)?;
    put_number(b" ", start.now, out)?;
    out.extend_from_slice(b"\n")
}
