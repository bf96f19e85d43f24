//! The calls that write a place as bytes, and as text.
ghost use Rattle.std.specs.Prelude.{◌≡◌, ◌∷◌, ◌++◌};
ghost use Rattle.std.specs.List.{flat_map};
ghost use Rattle.rbg_wire.specs.Writing.{Appends, AppendsAll};
ghost use Rattle.rbg_questions.specs.Answers.{packed as packed_answer, answer_text};
ghost use Rattle.rbg_questions.specs.Packing.{in_two, in_four, packed_form, packed_of, position_of};

use crate::stepping::values_at;
use rbg_base::{Memory, Piece, Player, Position};
use rbg_moves::GamePlace;
use rbg_wire::all_or_nothing;
use std::alloc::Global;

/// The first byte of a packed place.
pub(crate) const FORM: u8 = 1;

/// Appends the line of a packed place. On an error the bytes are unchanged.
pub(crate) fn write_pack(alloc: Global, bytes: &[u8], out: &mut Vec<u8>) -> Result<(), Memory>
    ensures { AppendsAll out.old.items out.new.items (answer_text (packed_answer bytes.now)) result }
{
    let len = out.len();
    let written = put_pack(alloc, bytes, out);
    all_or_nothing(written, len, out)
}

#[tactic(auto, unfolding(crate::specs::Answers::answer_text))]
fn put_pack(alloc: Global, bytes: &[u8], out: &mut Vec<u8>) -> Result<(), Memory>
    ensures { Appends out.old.items out.new.items (answer_text (packed_answer bytes.now)) result }
{
    let digits = hex::encode(alloc, bytes)?;
    out.extend_from_slice(b"pack ")?;
    out.extend_from_slice(digits.as_bytes())?;
    out.extend_from_slice(b"\n")
}

/// Appends the bytes of a place. On an error some of them may be there.
pub(crate) fn put_packed(at: &GamePlace<'_>, out: &mut Vec<u8>) -> Result<(), Memory>
    ensures { Appends out.old.items out.new.items (packed_of at.now.place) result }
{
    at.game().is_accepted();
    let place = at.place();
    let vertex = place.state.vertex() as u16;
    let last = number_of(place.after) as u16;
    let values = values_at(place);
    put_first(place.state.player(), vertex, last, out)?;
    put_rest(place.state.pieces(), values, out)
}

fn put_first(player: Player, vertex: u16, last: u16, out: &mut Vec<u8>) -> Result<(), Memory>
    ensures { Appends out.old.items out.new.items
        (packed_form ∷ (in_two player ++ in_two vertex ++ in_two last)) result }
{
    out.push(FORM)?;
    put_two(player, out)?;
    put_two(vertex, out)?;
    put_two(last, out)
}

fn put_rest(pieces: &[Piece], values: &[u32], out: &mut Vec<u8>) -> Result<(), Memory>
    ensures { Appends out.old.items out.new.items
        (flat_map in_two pieces.now ++ flat_map in_four values.now) result }
{
    put_pieces(pieces, out)?;
    put_values(values, out)
}

/// The number of the position of the last action; 0 where there is none.
fn number_of(last: Option<Position>) -> u32
    ensures { result ≡ position_of last }
{
    match last {
        Some(position) => position,
        None => 0,
    }
}

fn put_two(number: u16, out: &mut Vec<u8>) -> Result<(), Memory>
    ensures { Appends out.old.items out.new.items (in_two number) result }
{
    out.extend_from_slice(number.to_be_bytes().as_slice())
}

fn put_four(number: u32, out: &mut Vec<u8>) -> Result<(), Memory>
    ensures { Appends out.old.items out.new.items (in_four number) result }
{
    out.extend_from_slice(number.to_be_bytes().as_slice())
}

fn put_pieces(pieces: &[Piece], out: &mut Vec<u8>) -> Result<(), Memory>
    ensures { Appends out.old.items out.new.items (flat_map in_two pieces.now) result }
{
    for piece in pieces {
        put_two(*piece, out)?;
    }
    Ok(())
}

fn put_values(values: &[u32], out: &mut Vec<u8>) -> Result<(), Memory>
    ensures { Appends out.old.items out.new.items (flat_map in_four values.now) result }
{
    for value in values {
        put_four(*value, out)?;
    }
    Ok(())
}
