//! The calls that write texts within a page at the end of a list of bytes.
ghost use Rattle.std.specs.Prelude.{◌≡◌, ◌++◌, OnOk};
ghost use Rattle.rbg_view.specs.Texts.{entity, escaped, field_text, name_item, value_item, names_text, values_text};

use rbg_base::{Memory, Piece, Player, Variable};
use rbg_rules::Game;
use rbg_wire::write_number;

/// Appends a text, in which entities stand for the bytes that the language of pages reads.
pub(crate) fn put_escaped(text: &[u8], out: &mut Vec<u8>) -> Result<(), Memory>
    ensures { OnOk result (out.new.items ≡ out.old.items ++ escaped text.now) }
{
    for byte in text {
        put_entity(*byte, out)?;
    }
    Ok(())
}

#[tactic(auto, unfolding(crate::specs::Texts::entity))]
fn put_entity(byte: u8, out: &mut Vec<u8>) -> Result<(), Memory>
    ensures { OnOk result (out.new.items ≡ out.old.items ++ entity byte) }
{
    if byte == b'&' {
        out.extend_from_slice(b"&amp;")
    } else if byte == b'<' {
        out.extend_from_slice(b"&lt;")
    } else if byte == b'>' {
        out.extend_from_slice(b"&gt;")
    } else if byte == b'"' {
        out.extend_from_slice(b"&quot;")
    } else if byte == b'\'' {
        out.extend_from_slice(b"&#39;")
    } else {
        out.push(byte)?;
        Ok(())
    }
}

#[tactic(auto, unfolding(crate::specs::Texts::name_item))]
fn put_name_item(name: &str, out: &mut Vec<u8>) -> Result<(), Memory>
    ensures { OnOk result (out.new.items ≡ out.old.items ++ name_item name.now) }
{
    out.extend_from_slice(b"<li>")?;
    put_escaped(name.as_bytes(), out)?;
    out.extend_from_slice(b"</li>")
}

#[tactic(auto, unfolding(crate::specs::Texts::value_item))]
fn put_value_item(value: u32, out: &mut Vec<u8>) -> Result<(), Memory>
    ensures { OnOk result (out.new.items ≡ out.old.items ++ value_item value) }
{
    out.extend_from_slice(b"<li>")?;
    write_number(u64::from(value), out)?;
    out.extend_from_slice(b"</li>")
}

/// Appends a text, and the digits of a number.
pub(crate) fn put_field(head: &[u8], number: u64, out: &mut Vec<u8>) -> Result<(), Memory>
    ensures { OnOk result (out.new.items ≡ out.old.items ++ field_text head.now number) }
{
    out.extend_from_slice(head)?;
    write_number(number, out)
}

/// Appends an item for the name of each player.
pub(crate) fn put_players(game: &Game, out: &mut Vec<u8>) -> Result<(), Memory>
    ensures { OnOk result (out.new.items ≡ out.old.items ++ names_text game.now.players) }
{
    for index in 0..game.players() {
        put_name_item(game.player_name(index as Player + 1), out)?;
    }
    Ok(())
}

/// Appends an item for the name of each piece.
pub(crate) fn put_pieces(game: &Game, out: &mut Vec<u8>) -> Result<(), Memory>
    ensures { OnOk result (out.new.items ≡ out.old.items ++ names_text game.now.pieces) }
{
    for index in 0..game.pieces() {
        put_name_item(game.piece_name(index as Piece), out)?;
    }
    Ok(())
}

/// Appends an item for the name of each variable.
pub(crate) fn put_variables(game: &Game, out: &mut Vec<u8>) -> Result<(), Memory>
    ensures { OnOk result (out.new.items ≡ out.old.items ++ names_text game.now.variables) }
{
    for index in 0..game.variables() {
        put_name_item(game.variable_name(index as Variable), out)?;
    }
    Ok(())
}

/// Appends an item for each value.
pub(crate) fn put_values(values: &[u32], out: &mut Vec<u8>) -> Result<(), Memory>
    ensures { OnOk result (out.new.items ≡ out.old.items ++ values_text values.now) }
{
    for value in values {
        put_value_item(*value, out)?;
    }
    Ok(())
}
