//! The call that writes the shape of a game.
ghost use Rattle.std.specs.Prelude.{◌≡◌, ◌<◌, ◌++◌, OnErr, OnOk, codes, length, take};
ghost use Rattle.rbg_board.specs.Graph.{next};
ghost use Rattle.rbg_rules.specs.Meaning.{action_of, skip, positions_of};
ghost use Rattle.rbg_wire.specs.Lines.{line_of};
ghost use Rattle.rbg_wire.specs.Writing.{Appends};
ghost use Rattle.rbg_questions.specs.Fields.{names_text, numbers_text};
ghost use Rattle.rbg_questions.specs.Shapes.{action_line, action_text, counts_line, edge_lines, layout_text, way_text, ways_text};
ghost use Rattle.rbg_questions.specs.internal.Shaping.{WritesActions, WritesShape};

use crate::answer_writer::put_pieces;
use rbg_base::{Direction, Memory, Piece, Position, Variable, Vertex};
use rbg_rules::{Action, Game};
use rbg_wire::put_number;

/// Appends the lines of a game's numbers, bounds, directions, edges and actions. On an error the bytes are unchanged.
pub(crate) fn write_shape(game: &Game, out: &mut Vec<u8>) -> Result<(), Memory>
    ensures written { OnOk result (WritesShape game.now out.old.items out.new.items) }
    ensures kept { OnErr result (out.new.items ≡ out.old.items) }
{
    let len = out.len();
    let written = put_shape(game, out);
    if written.is_err() {
        out.truncate(len);
    }
    written
}

fn put_shape(game: &Game, out: &mut Vec<u8>) -> Result<(), Memory>
    ensures written { OnOk result (WritesShape game.now out.old.items out.new.items) }
    ensures kept { take (length out.old.items) out.new.items ≡ out.old.items }
{
    put_layout(game, out)?;
    put_actions(game, out)
}

#[tactic(auto, unfolding(crate::specs::Shapes::layout_text))]
fn put_layout(game: &Game, out: &mut Vec<u8>) -> Result<(), Memory>
    ensures { Appends out.old.items out.new.items (layout_text game.now) result }
{
    put_counts(game, out)?;
    put_bounds_line(game, out)?;
    put_directions_line(game, out)?;
    put_edges(game, out)
}

/// Appends the line of how many players, vertices and positions there are.
fn put_counts(game: &Game, out: &mut Vec<u8>) -> Result<(), Memory>
    ensures { Appends out.old.items out.new.items
        (counts_line (length game.now.players) (length game.now.board.first)
        (length (positions_of game.now.rules))) result }
{
    put_number(b"shape ", game.players() as u64, out)?;
    put_number(b" ", game.board().len() as u64, out)?;
    put_number(b" ", game.positions() as u64, out)?;
    out.extend_from_slice(b"\n")
}

fn put_bounds_line(game: &Game, out: &mut Vec<u8>) -> Result<(), Memory>
    ensures { Appends out.old.items out.new.items
        (line_of (codes "bounds" ++ numbers_text game.now.bounds)) result }
{
    out.extend_from_slice(b"bounds")?;
    put_bounds(game, out)?;
    out.extend_from_slice(b"\n")
}

/// Appends the bound of each variable.
fn put_bounds(game: &Game, out: &mut Vec<u8>) -> Result<(), Memory>
    ensures { Appends out.old.items out.new.items (numbers_text game.now.bounds) result }
{
    for index in 0..game.variables() {
        put_number(b" ", u64::from(game.bound(index as Variable)), out)?;
    }
    Ok(())
}

fn put_directions_line(game: &Game, out: &mut Vec<u8>) -> Result<(), Memory>
    ensures { Appends out.old.items out.new.items
        (line_of (codes "directions" ++ names_text game.now.directions)) result }
{
    out.extend_from_slice(b"directions")?;
    put_directions(game, out)?;
    out.extend_from_slice(b"\n")
}

/// Appends the name of each direction.
fn put_directions(game: &Game, out: &mut Vec<u8>) -> Result<(), Memory>
    ensures { Appends out.old.items out.new.items (names_text game.now.directions) result }
{
    for index in 0..game.directions() {
        put_direction(game.direction_name(index as Direction), out)?;
    }
    Ok(())
}

fn put_direction(name: &str, out: &mut Vec<u8>) -> Result<(), Memory>
    ensures { Appends out.old.items out.new.items (codes " " ++ name.now) result }
{
    out.extend_from_slice(b" ")?;
    out.extend_from_slice(name.as_bytes())
}

/// Appends a line for each vertex.
fn put_edges(game: &Game, out: &mut Vec<u8>) -> Result<(), Memory>
    ensures { Appends out.old.items out.new.items
        (edge_lines game.now.board (length game.now.directions) (length game.now.board.first))
        result }
{
    for index in 0..game.board().len() {
        put_edges_of(game, index as Vertex, out)?;
    }
    Ok(())
}

/// Appends the line of where the directions lead from a vertex.
fn put_edges_of(game: &Game, vertex: Vertex, out: &mut Vec<u8>) -> Result<(), Memory>
    requires { vertex < length game.now.board.first }
    ensures { Appends out.old.items out.new.items
        (line_of (codes "edges" ++ ways_text game.now.board vertex (length game.now.directions)))
        result }
{
    out.extend_from_slice(b"edges")?;
    put_ways(game, vertex, out)?;
    out.extend_from_slice(b"\n")
}

fn put_ways(game: &Game, vertex: Vertex, out: &mut Vec<u8>) -> Result<(), Memory>
    requires { vertex < length game.now.board.first }
    ensures { Appends out.old.items out.new.items
        (ways_text game.now.board vertex (length game.now.directions)) result }
{
    for index in 0..game.directions() {
        put_way(game.board().step(vertex, index as Direction), out)?;
    }
    Ok(())
}

/// Appends where a direction leads.
fn put_way(to: Option<Vertex>, out: &mut Vec<u8>) -> Result<(), Memory>
    ensures { Appends out.old.items out.new.items (way_text to) result }
{
    match to {
        None => out.extend_from_slice(b" -"),
        Some(vertex) => put_number(b" ", u64::from(vertex), out),
    }
}

/// Appends a line for each position.
fn put_actions(game: &Game, out: &mut Vec<u8>) -> Result<(), Memory>
    ensures written { OnOk result (WritesActions game.now.rules out.old.items out.new.items) }
    ensures kept { take (length out.old.items) out.new.items ≡ out.old.items }
{
    for index in 0..game.positions() {
        put_action_line(game.action(index as Position + 1), out)?;
    }
    Ok(())
}

fn put_action_line(action: &Action, out: &mut Vec<u8>) -> Result<(), Memory>
    ensures { Appends out.old.items out.new.items (action_line (action_of action.now skip)) result }
{
    out.extend_from_slice(b"action ")?;
    put_action(action, out)?;
    out.extend_from_slice(b"\n")
}

/// Appends the word of an action, and the numbers of what it names.
fn put_action(action: &Action, out: &mut Vec<u8>) -> Result<(), Memory>
    ensures { Appends out.old.items out.new.items (action_text (action_of action.now skip)) result }
{
    match action {
        Action::Shift { direction } => put_number(b"shift ", u64::from(*direction), out),
        Action::On { pieces } => put_on(pieces.as_slice(), out),
        Action::Off { piece } => put_number(b"off ", u64::from(*piece), out),
        Action::Assign { variable, value: _ } => {
            put_number(b"assign ", u64::from(*variable), out)
        }
        Action::Compare {
            left: _,
            relation: _,
            right: _,
        } => out.extend_from_slice(b"compare"),
        Action::Switch { player } => put_number(b"switch ", u64::from(*player), out),
        Action::Positive => out.extend_from_slice(b"positive"),
        Action::Negative => out.extend_from_slice(b"negative"),
    }
}

fn put_on(pieces: &[Piece], out: &mut Vec<u8>) -> Result<(), Memory>
    ensures { Appends out.old.items out.new.items (codes "on" ++ numbers_text pieces.now) result }
{
    out.extend_from_slice(b"on")?;
    put_pieces(pieces, out)
}
