//! What a game has: the counts, and each name with its number.

use rbg_console::count_line;
use rbg_game::Game;
use std::alloc::{AllocError, Global};

/// `ok` with the counts, and then a line for each name: what it names, its number and the name, and for a variable its
/// bound.
pub fn listing(alloc: Global, game: &Game) -> Result<String, AllocError> {
    let counts = count_line(alloc, game)?;
    let mut lines = format!(in alloc; "ok {counts}\n")?;
    push_players(&mut lines, game)?;
    push_pieces(&mut lines, game)?;
    push_variables(&mut lines, game)?;
    push_directions(&mut lines, game)?;
    Ok(lines)
}

fn push_players(lines: &mut String, game: &Game) -> Result<(), AllocError> {
    for index in 0..game.players() {
        let player = index as u16 + 1;
        push_thing(lines, "player", player, game.player_name(player))?;
    }
    Ok(())
}

fn push_pieces(lines: &mut String, game: &Game) -> Result<(), AllocError> {
    for index in 0..game.pieces() {
        let piece = index as u16;
        push_thing(lines, "piece", piece, game.piece_name(piece))?;
    }
    Ok(())
}

fn push_variables(lines: &mut String, game: &Game) -> Result<(), AllocError> {
    for index in 0..game.variables() {
        let variable = index as u16;
        let name = game.variable_name(variable);
        let bound = game.bound(variable);
        writeln!(lines, "variable {variable} {name} {bound}")?;
    }
    Ok(())
}

fn push_directions(lines: &mut String, game: &Game) -> Result<(), AllocError> {
    for index in 0..game.directions() {
        let direction = index as u16;
        push_thing(
            lines,
            "direction",
            direction,
            game.direction_name(direction),
        )?;
    }
    Ok(())
}

/// Adds the line of a thing that has a number and a name.
fn push_thing(lines: &mut String, kind: &str, number: u16, name: &str) -> Result<(), AllocError> {
    writeln!(lines, "{kind} {number} {name}")?;
    Ok(())
}
