//! The calls that write a line of a script at the end of a list of bytes.
ghost use Rattle.std.specs.Prelude.{◌≡◌, ◌+◌, ◌++◌, ◌<◌, All, codes, decimal, replicate, slice_index};
ghost use Rattle.std.specs.List.{flat_map};
ghost use Rattle.hex.specs.Hex.{lower_digits};
ghost use Rattle.rbg_wire.specs.Writing.{Appends, AppendsAll};
ghost use Rattle.rbg_wire.specs.Inboxes.{item_of};
ghost use Rattle.rbg_wire.specs.Lines.{line_of};
ghost use Rattle.rbg_wire.specs.Whole.{filler, whole_item};
ghost use Rattle.rbg_script.specs.Config.{config_text};
ghost use Rattle.rbg_script.specs.Events.{EventHasSpelling, HasFields, byte_text, end_of_stream, end_text, owned_event_of, event_text, fields_text, piece, moment_alone, tick_text};

use crate::{Event, ScriptConfig};
use rbg_base::Memory;
use rbg_wire::{Took, all_or_nothing, put_number};

/// The hexadecimal digits that are written.
const DIGITS: &[u8; 16] = b"0123456789abcdef";

/// The byte of which the piece of a message that is too long is made.
const FILLER: u8 = b'x';

/// Appends the line of a config. It is read back as that config if its numbers are within their limits. On an error the
/// bytes are unchanged.
pub fn write_config(config: ScriptConfig, out: &mut Vec<u8>) -> Result<(), Memory>
    ensures { AppendsAll out.old.items out.new.items (line_of (config_text config)) result }
{
    let len = out.len();
    let written = put_config(config, out);
    all_or_nothing(written, len, out)
}

/// Appends the line of an event. A piece is written in lower-case hexadecimal digits. On an error the bytes are
/// unchanged.
pub fn write_event(event: &Event<Vec<u8>>, out: &mut Vec<u8>) -> Result<(), Memory>
    ensures written { AppendsAll out.old.items out.new.items
        (line_of (event_text (owned_event_of event.now))) result }
    ensures spelled { EventHasSpelling (owned_event_of event.now) }
{
    match event {
        Event::Piece { source, at, bytes } => write_piece(*source, *at, bytes.as_slice(), out),
        Event::Ended { source, at } => write_end(*source, *at, out),
        Event::Tick { at } => write_tick(*at, out),
    }
}

/// Appends the line of a piece of a seat's stream, in lower-case hexadecimal digits. On an error the bytes are
/// unchanged.
pub fn write_piece(seat: u64, at: u64, bytes: &[u8], out: &mut Vec<u8>) -> Result<(), Memory>
    ensures written { AppendsAll out.old.items out.new.items
        (line_of (event_text (piece seat at bytes.now))) result }
    ensures spelled { EventHasSpelling (piece seat at bytes.now) }
{
    are_bytes(bytes);
    let len = out.len();
    let written = put_piece_line(seat, at, bytes, out);
    all_or_nothing(written, len, out)
}

/// Appends the line of the piece that holds this item of a seat's stream and nothing else, as `write_piece` does. A
/// message has at most `limit` bytes. On an error the bytes are unchanged.
pub fn write_item(
    seat: u64,
    at: u64,
    took: Took<'_>,
    limit: usize,
    out: &mut Vec<u8>,
) -> Result<(), Memory>
    ensures written { AppendsAll out.old.items out.new.items
        (line_of (event_text (piece seat at (whole_item limit (item_of took.entry))))) result }
    ensures spelled { EventHasSpelling (piece seat at (whole_item limit (item_of took.entry))) }
{
    are_item_bytes(took, limit);
    let len = out.len();
    let written = put_item_line(seat, at, took, limit, out);
    all_or_nothing(written, len, out)
}

/// Appends the line of the end of a seat's stream. On an error the bytes are unchanged.
pub fn write_end(seat: u64, at: u64, out: &mut Vec<u8>) -> Result<(), Memory>
    ensures written { AppendsAll out.old.items out.new.items
        (line_of (event_text (end_of_stream seat at))) result }
    ensures spelled { EventHasSpelling (end_of_stream seat at) }
{
    let len = out.len();
    let written = put_end_line(seat, at, out);
    all_or_nothing(written, len, out)
}

/// Appends the line of a moment. On an error the bytes are unchanged.
pub fn write_tick(at: u64, out: &mut Vec<u8>) -> Result<(), Memory>
    ensures written { AppendsAll out.old.items out.new.items
        (line_of (event_text (moment_alone at))) result }
    ensures spelled { EventHasSpelling (moment_alone at) }
{
    let len = out.len();
    let written = put_tick_line(at, out);
    all_or_nothing(written, len, out)
}

/// Appends an `m` line: a message that a seat sends, without its zero byte. On an error the bytes are unchanged.
pub fn write_message(seat: u64, at: u64, text: &[u8], out: &mut Vec<u8>) -> Result<(), Memory>
    ensures written { AppendsAll out.old.items out.new.items
        (line_of (fields_text (codes "m ") seat at text.now)) result }
    ensures spelled { HasFields (fields_text (codes "m ") seat at text.now) (codes "m ") seat at text.now }
{
    let len = out.len();
    let written = put_message_line(seat, at, text, out);
    all_or_nothing(written, len, out)
}

#[tactic(auto, unfolding(crate::specs::Events::event_text))]
fn put_piece_line(seat: u64, at: u64, bytes: &[u8], out: &mut Vec<u8>) -> Result<(), Memory>
    ensures { Appends out.old.items out.new.items
        (line_of (event_text (piece seat at bytes.now))) result }
{
    put_piece(seat, at, bytes, out)?;
    out.extend_from_slice(b"\n")
}

/// Bytes are numbers below 256. Only a walk over a slice proves that of all its bytes.
fn are_bytes(bytes: &[u8])
    ensures { All (λ byte. byte < 256) bytes.now }
{
    for byte in bytes {
        let _byte = *byte;
    }
}

#[tactic(auto, unfolding(crate::specs::Events::event_text, crate::specs::Events::fields_text))]
fn put_item_line(
    seat: u64,
    at: u64,
    took: Took<'_>,
    limit: usize,
    out: &mut Vec<u8>,
) -> Result<(), Memory>
    ensures { Appends out.old.items out.new.items
        (line_of (event_text (piece seat at (whole_item limit (item_of took.entry))))) result }
{
    put_head(b"p ", seat, at, out)?;
    put_item(took, limit, out)?;
    out.extend_from_slice(b"\n")
}

/// The piece that holds an item is made of bytes.
fn are_item_bytes(took: Took<'_>, limit: usize)
    ensures { All (λ byte. byte < 256) (whole_item limit (item_of took.entry)) }
{
    match took {
        Took::Message(text) => are_bytes(text),
        Took::TooLong => (),
    }
}

#[tactic(auto, unfolding(crate::specs::Events::event_text))]
fn put_end_line(seat: u64, at: u64, out: &mut Vec<u8>) -> Result<(), Memory>
    ensures { Appends out.old.items out.new.items
        (line_of (event_text (end_of_stream seat at))) result }
{
    put_end(seat, at, out)?;
    out.extend_from_slice(b"\n")
}

#[tactic(auto, unfolding(crate::specs::Events::event_text))]
fn put_tick_line(at: u64, out: &mut Vec<u8>) -> Result<(), Memory>
    ensures { Appends out.old.items out.new.items (line_of (event_text (moment_alone at))) result }
{
    put_tick(at, out)?;
    out.extend_from_slice(b"\n")
}

#[tactic(auto, unfolding(crate::specs::Events::fields_text))]
fn put_message_line(seat: u64, at: u64, text: &[u8], out: &mut Vec<u8>) -> Result<(), Memory>
    ensures { Appends out.old.items out.new.items
        (line_of (fields_text (codes "m ") seat at text.now)) result }
{
    put_head(b"m ", seat, at, out)?;
    out.extend_from_slice(text)?;
    out.extend_from_slice(b"\n")
}

#[tactic(auto, unfolding(crate::specs::Config::config_text))]
fn put_config(config: ScriptConfig, out: &mut Vec<u8>) -> Result<(), Memory>
    ensures { Appends out.old.items out.new.items (line_of (config_text config)) result }
{
    put_number(b"config ", config.turn_ms, out)?;
    put_number(b" ", u64::from(config.refusals), out)?;
    put_number(b" ", config.now, out)?;
    out.extend_from_slice(b"\n")
}

#[tactic(auto, unfolding(crate::specs::Events::fields_text))]
fn put_piece(seat: u64, at: u64, bytes: &[u8], out: &mut Vec<u8>) -> Result<(), Memory>
    ensures { Appends out.old.items out.new.items
        (fields_text (codes "p ") seat at (flat_map byte_text bytes.now)) result }
{
    put_head(b"p ", seat, at, out)?;
    put_digits(bytes, out)
}

// Appends the part of a `p` or `m` line before its bytes: the word, the seat and the moment.
fn put_head(word: &[u8], seat: u64, at: u64, out: &mut Vec<u8>) -> Result<(), Memory>
    ensures { Appends out.old.items out.new.items
        (word.now ++ decimal seat ++ codes " " ++ decimal at ++ codes " ") result }
{
    put_number(word, seat, out)?;
    put_number(b" ", at, out)?;
    out.extend_from_slice(b" ")
}

#[tactic(auto, unfolding(crate::specs::Events::end_text))]
fn put_end(seat: u64, at: u64, out: &mut Vec<u8>) -> Result<(), Memory>
    ensures { Appends out.old.items out.new.items (end_text seat at) result }
{
    put_number(b"e ", seat, out)?;
    put_number(b" ", at, out)
}

#[tactic(auto, unfolding(crate::specs::Events::tick_text))]
fn put_tick(at: u64, out: &mut Vec<u8>) -> Result<(), Memory>
    ensures { Appends out.old.items out.new.items (tick_text at) result }
{
    put_number(b"t ", at, out)
}

fn put_digits(bytes: &[u8], out: &mut Vec<u8>) -> Result<(), Memory>
    ensures { Appends out.old.items out.new.items (flat_map byte_text bytes.now) result }
{
    for byte in bytes {
        put_byte(*byte, out)?;
    }
    Ok(())
}

// Appends the digits of the piece that holds an item and nothing else.
fn put_item(took: Took<'_>, limit: usize, out: &mut Vec<u8>) -> Result<(), Memory>
    ensures { Appends out.old.items out.new.items (flat_map byte_text (whole_item limit (item_of took.entry))) result }
{
    match took {
        Took::Message(text) => put_digits(text, out)?,
        Took::TooLong => put_filler(limit, out)?,
    }
    put_byte(0, out)
}

// Appends the digits of one filling byte more than the limit.
fn put_filler(limit: usize, out: &mut Vec<u8>) -> Result<(), Memory>
    ensures { Appends out.old.items out.new.items (flat_map byte_text (replicate (limit + 1) filler)) result }
{
    for _ in 0..limit {
        put_byte(FILLER, out)?;
    }
    put_byte(FILLER, out)
}

fn put_byte(byte: u8, out: &mut Vec<u8>) -> Result<(), Memory>
    ensures { Appends out.old.items out.new.items (byte_text byte) result }
{
    out.extend_from_slice(&[digit(byte / 16), digit(byte % 16)])
}

// The digit of a number below 16.
fn digit(value: u8) -> u8
    requires { value < 16 }
    ensures { result ≡ slice_index lower_digits value }
{
    DIGITS[value as usize]
}
