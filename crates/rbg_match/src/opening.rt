//! How a match opens: each seat is greeted, and play is set to its start.
ghost use Rattle.std.specs.Prelude.{◌≡◌, ◌≤◌, length, All, IsTrue, IfOk};
ghost use Rattle.rbg_base.specs.Names.{is_name};
ghost use Rattle.rbg_wire.specs.Bytes.{LacksByte};
ghost use Rattle.rbg_match.specs.Config.{IsWithinLimits};
ghost use Rattle.rbg_match.specs.internal.Opening.{first_outbox, referee_at_start};
ghost use Rattle.rbg_match.specs.Limits.{latest_moment};
ghost use Rattle.rbg_match.specs.internal.Saying.{QueuesMessages};
ghost use Rattle.rbg_match.specs.Play.{play_at_start};
ghost use Rattle.rbg_match.specs.internal.PlayOf.{play_of};
ghost use Rattle.rbg_match.specs.internal.Playable.{IsPlayOf};
ghost use Rattle.rbg_match.specs.PlayingOn.{seats_of};
ghost use Rattle.rbg_match.specs.internal.Inboxes.{AreNew};
ghost use Rattle.rbg_match.specs.Transcript.{greeting, greetings};

use crate::play::Play;
use crate::state::Referee;
use crate::{Config, Outbox};
use rbg_base::Memory;
use rbg_moves::{Place, PlayedGame, Workspace};
use rbg_rules::Game;
use rbg_wire::{Inbox, Message};
use std::alloc::Global;

/// The maximum number of bytes of a seat's message, without its zero byte.
pub const MESSAGE_LIMIT: usize = 4096;

/// Greets one seat.
fn greet_seat(
    seat: usize,
    name: &str,
    text: &[u8],
    config: Config,
    outbox: &mut Outbox,
) -> Result<(), Memory>
    requires some { 1 ≤ seat }
    requires most { seat ≤ length outbox.old }
    requires name { IsTrue (is_name name.now) }
    requires no_zero { LacksByte 0 text.now }
    ensures { QueuesMessages outbox.old outbox.new result (λ _ outgoing.
        outgoing ≡ greeting text.now config seat name.now) }
{
    let who = Message::Who {
        player: seat as u64,
        name: name.as_bytes(),
    };
    outbox.queue_message(seat, &who)?;
    outbox.queue_message(seat, &Message::Game { text })?;
    let limits = Message::Limits {
        turn_ms: config.turn_ms,
        refusals: u64::from(config.refusals),
    };
    outbox.queue_message(seat, &limits)?;
    Ok(())
}

/// Greets each seat.
fn greet(game: &Game, text: &[u8], config: Config, outbox: &mut Outbox) -> Result<(), Memory>
    requires seats { length outbox.old ≡ seats_of game.now }
    requires names { All (λ name. IsTrue (is_name name)) game.now.players }
    requires no_zero { LacksByte 0 text.now }
    ensures { QueuesMessages outbox.old outbox.new result (λ _ outgoing.
        outgoing ≡ greetings text.now config game.now.players) }
{
    for index in 0..game.players() {
        let name = game.player_name(index as u16 + 1);
        greet_seat(index + 1, name, text, config, outbox)?;
    }
    Ok(())
}

/// An outbox in which each seat is greeted.
fn first_outbox(alloc: Global, game: &Game, text: &[u8], config: Config) -> Result<Outbox, Memory>
    requires names { All (λ name. IsTrue (is_name name)) game.now.players }
    requires no_zero { LacksByte 0 text.now }
    ensures { IfOk result (λ outbox. outbox ≡ first_outbox game.now text.now config) }
{
    let mut outbox = Outbox::new(alloc, game.players())?;
    greet(game, text, config, &mut outbox)?;
    Ok(outbox)
}

/// The referee of a match at the start of play, at a counted moment. Each seat is greeted.
pub(crate) fn referee_at_start(
    alloc: Global,
    game: Game,
    text: &[u8],
    config: Config,
    moment: u64,
) -> Result<Referee, Memory>
    requires no_zero { LacksByte 0 text.now }
    requires lawful { IsWithinLimits config }
    requires counted { moment ≤ latest_moment }
    ensures { IfOk result (λ referee. referee ≡ referee_at_start game text.now config moment) }
{
    let outbox = first_outbox(alloc, &game, text, config)?;
    let play = start(alloc, &game, moment)?;
    let game = PlayedGame::new(alloc, game)?;
    Ok(Referee {
        game,
        config,
        moment,
        play,
        outbox,
    })
}

/// The state of play at the start of a match.
fn start(alloc: Global, game: &Game, moment: u64) -> Result<Play, Memory>
    requires { moment ≤ latest_moment }
    ensures play { IfOk result (λ play. play_of play ≡ play_at_start game.now moment) }
    ensures in_game { IfOk result (λ play. IsPlayOf game.now (play_of play)) }
{
    Ok(Play {
        place: Place::start(alloc, game)?,
        turn_began: moment,
        refusals: vec![in alloc; 0; game.players()]?,
        made: Vec::new(alloc),
        outcome: None,
        workspace: Workspace::new(alloc),
    })
}

/// An empty inbox for each seat.
pub(crate) fn new_inboxes(alloc: Global, seats: usize) -> Result<Vec<Inbox>, Memory>
    ensures { IfOk result (λ inboxes. AreNew seats inboxes.items) }
{
    let mut inboxes = Vec::with_capacity(alloc, seats)?;
    for _ in 0..seats {
        inboxes.push(Inbox::new(alloc, MESSAGE_LIMIT))?;
    }
    Ok(inboxes)
}
