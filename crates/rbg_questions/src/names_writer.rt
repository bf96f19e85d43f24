//! The call that writes the names of a game.
ghost use Rattle.std.specs.Prelude.{◌++◌, codes};
ghost use Rattle.rbg_wire.specs.Writing.{Appends, AppendsAll};
ghost use Rattle.rbg_questions.specs.Answers.{names as names_answer, answer_text, names_text};

use rbg_base::{Memory, Piece, Player, Variable};
use rbg_rules::Game;
use rbg_wire::all_or_nothing;

/// Appends the lines of the names of a game's players, pieces and variables. On an error the bytes are unchanged.
pub fn write_names(game: &Game, out: &mut Vec<u8>) -> Result<(), Memory>
    ensures { AppendsAll out.old.items out.new.items
        (answer_text (names_answer game.now.players game.now.pieces game.now.variables)) result }
{
    let len = out.len();
    let written = put_names(game, out);
    all_or_nothing(written, len, out)
}

#[tactic(auto, unfolding(crate::specs::Answers::answer_text))]
fn put_names(game: &Game, out: &mut Vec<u8>) -> Result<(), Memory>
    ensures { Appends out.old.items out.new.items
        (answer_text (names_answer game.now.players game.now.pieces game.now.variables)) result }
{
    out.extend_from_slice(b"players")?;
    put_players(game, out)?;
    out.extend_from_slice(b"\npieces")?;
    put_pieces(game, out)?;
    out.extend_from_slice(b"\nvariables")?;
    put_variables(game, out)?;
    out.extend_from_slice(b"\n")
}

fn put_players(game: &Game, out: &mut Vec<u8>) -> Result<(), Memory>
    ensures { Appends out.old.items out.new.items (names_text game.now.players) result }
{
    for index in 0..game.players() {
        put_name(game.player_name(index as Player + 1), out)?;
    }
    Ok(())
}

fn put_pieces(game: &Game, out: &mut Vec<u8>) -> Result<(), Memory>
    ensures { Appends out.old.items out.new.items (names_text game.now.pieces) result }
{
    for index in 0..game.pieces() {
        put_name(game.piece_name(index as Piece), out)?;
    }
    Ok(())
}

fn put_variables(game: &Game, out: &mut Vec<u8>) -> Result<(), Memory>
    ensures { Appends out.old.items out.new.items (names_text game.now.variables) result }
{
    for index in 0..game.variables() {
        put_name(game.variable_name(index as Variable), out)?;
    }
    Ok(())
}

/// Appends a space and a name.
fn put_name(name: &str, out: &mut Vec<u8>) -> Result<(), Memory>
    ensures { Appends out.old.items out.new.items (codes " " ++ name.now) result }
{
    out.extend_from_slice(b" ")?;
    out.extend_from_slice(name.as_bytes())
}
