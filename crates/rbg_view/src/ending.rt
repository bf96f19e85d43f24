//! How the end of a list is written: how the match ended, who is to move, or why it stops.
ghost use Rattle.std.specs.Prelude.{◌++◌, ◌≢◌, None, OnOk};
ghost use Rattle.rbg_wire.specs.Writing.{Appends};
ghost use Rattle.rbg_view.specs.declared.stop.Stop.TheVariants.{Memory as NoMemory};
ghost use Rattle.rbg_moves.specs.Playing.{mover_text};
ghost use Rattle.rbg_view.specs.Endings.{ended_text, ending_text, ending_words, reason_text, stopped_text, who_text};

use crate::stop::Stop;
use rbg_base::{Memory, Player};
use rbg_moves::Playthrough;
use rbg_rules::Game;
use rbg_wire::{Outcome, write_number};

/// Appends how the match ended, or who is to move if there is a move.
#[tactic(auto, unfolding(crate::specs::Endings::ended_text))]
pub(crate) fn put_end(
    play: &Playthrough<'_>,
    outcome: Option<Outcome>,
    goes_on: bool,
    out: &mut Vec<u8>,
) -> Result<(), Memory>
    ensures { Appends out.old.items out.new.items (ended_text play.now outcome goes_on) result }
{
    match outcome {
        Some(outcome) => write_outcome(play.game(), &outcome, out),
        None => put_going(play, goes_on, out),
    }
}

#[tactic(auto, unfolding(crate::specs::Endings::ended_text))]
fn put_going(play: &Playthrough<'_>, goes_on: bool, out: &mut Vec<u8>) -> Result<(), Memory>
    ensures { Appends out.old.items out.new.items (ended_text play.now None goes_on) result }
{
    if goes_on {
        put_mover(b"", play, b" is to move\n", out)
    } else {
        out.extend_from_slice(b"play is finished\n")
    }
}

/// Appends who is to move, with words before and after it.
fn put_mover(
    before: &[u8],
    play: &Playthrough<'_>,
    beyond: &[u8],
    out: &mut Vec<u8>,
) -> Result<(), Memory>
    ensures { Appends out.old.items out.new.items
        (before.now ++ mover_text play.now ++ beyond.now) result }
{
    out.extend_from_slice(before)?;
    out.extend_from_slice(play.mover().as_bytes())?;
    out.extend_from_slice(beyond)
}

/// Appends the number of the line at which a list stops, and why. Where memory has run out, it does again.
pub(crate) fn put_stop(
    play: &Playthrough<'_>,
    number: usize,
    stop: Stop,
    out: &mut Vec<u8>,
) -> Result<(), Memory>
    ensures told { Appends out.old.items out.new.items (stopped_text play.now number stop) result }
    ensures known { OnOk result (stop ≢ NoMemory) }
{
    out.extend_from_slice(b"line ")?;
    write_number(number as u64, out)?;
    put_reason(play, stop, out)?;
    Ok(())
}

#[tactic(auto, unfolding(crate::specs::Endings::reason_text))]
fn put_reason(play: &Playthrough<'_>, stop: Stop, out: &mut Vec<u8>) -> Result<(), Memory>
    ensures told { Appends out.old.items out.new.items (reason_text play.now stop) result }
    ensures known { OnOk result (stop ≢ NoMemory) }
{
    match stop {
        Stop::NotLegal => put_mover(b": no legal move of ", play, b"\n", out),
        Stop::NoMove => out.extend_from_slice(b" isn't a move\n"),
        Stop::Mark => out.extend_from_slice(b" begins with a byte order mark\n"),
        Stop::AfterEnd => out.extend_from_slice(b" stands behind the end of the record\n"),
        Stop::Heavy => out.extend_from_slice(b": a question is above the limits\n"),
        Stop::Keeper => out.extend_from_slice(b": the keeper made 1,000 moves in a row\n"),
        Stop::Memory => Err(Memory),
    }
}

/// Appends the line of how a match ended.
fn write_outcome(game: &Game, outcome: &Outcome, out: &mut Vec<u8>) -> Result<(), Memory>
    ensures { Appends out.old.items out.new.items
        (ending_text game.now.players outcome.now) result }
{
    out.extend_from_slice(b"the match ended: ")?;
    put_words(game, outcome, out)?;
    out.extend_from_slice(b"\n")
}

#[tactic(auto, unfolding(crate::specs::Endings::ending_words))]
fn put_words(game: &Game, outcome: &Outcome, out: &mut Vec<u8>) -> Result<(), Memory>
    ensures { Appends out.old.items out.new.items
        (ending_words game.now.players outcome.now) result }
{
    match outcome {
        Outcome::Finished { .. } => out.extend_from_slice(b"play is finished"),
        Outcome::Time { player } => put_around(b"the time of ", game, *player, b" is over", out),
        Outcome::Refusals { player } => {
            put_around(b"", game, *player, b" had too many refusals", out)
        }
        Outcome::Gone { player } => put_around(b"the stream of ", game, *player, b" ended", out),
        Outcome::Heavy => out.extend_from_slice(b"a limit of play was reached"),
    }
}

/// Appends the name of a player, with words before and after it.
fn put_around(
    before: &[u8],
    game: &Game,
    player: u64,
    beyond: &[u8],
    out: &mut Vec<u8>,
) -> Result<(), Memory>
    ensures { Appends out.old.items out.new.items
        (before.now ++ who_text game.now.players player ++ beyond.now) result }
{
    out.extend_from_slice(before)?;
    put_who(game, player, out)?;
    out.extend_from_slice(beyond)
}

/// Appends the name of a player, or its number where the game has no such player.
#[tactic(auto, unfolding(crate::specs::Endings::who_text))]
pub(crate) fn put_who(game: &Game, player: u64, out: &mut Vec<u8>) -> Result<(), Memory>
    ensures { Appends out.old.items out.new.items (who_text game.now.players player) result }
{
    if 0 < player && player <= game.players() as u64 {
        out.extend_from_slice(game.player_name(player as Player).as_bytes())
    } else {
        out.extend_from_slice(b"player ")?;
        write_number(player, out)
    }
}
