//! A whole match, from the text of its game and a list of events to the bytes of each seat.
ghost use Rattle.std.specs.Prelude.{◌≡◌, ◌<◌, ℕ, List, length, map, take, false, None, IfOk, IfErr, OnOk};
ghost use Rattle.rbg_game.specs.Loading.{IsRefused};
ghost use Rattle.rbg_match.specs.declared.config.Config.{Config};
ghost use Rattle.rbg_match.specs.PlayingOn.{seats_of};
ghost use Rattle.rbg_script.specs.Events.{AbstractEvent, event_of};
ghost use Rattle.rbg_match.specs.Matches.{HasHistory, MatchState, StepsAll};
ghost use Rattle.rbg_referee.specs.Played.{IsMatchOf};
ghost use Rattle.rbg_referee.specs.Refereed.{IsRefereed, IsRefusedFor, OpensText, StopsMatch};

use crate::RefereeError;
use rbg_game::{LoadError, load};
use rbg_match::{Config, Match, MatchError, Outbox};
use rbg_script::Event;
use std::alloc::Global;

/// Referees a match: loads the game from its text, makes the match at the moment `now`, and handles the events in turn.
/// Returns the outbox, which holds the bytes of each seat.
pub fn referee(
    alloc: Global,
    text: &[u8],
    config: Config,
    now: u64,
    events: &[Event<&[u8]>],
) -> Result<Outbox, RefereeError>
    ensures refereed { IfOk result (IsRefereed text.now config now (map event_of events.now)) }
    ensures refused { IfErr result (IsRefusedFor text.now config now (map event_of events.now)) }
{
    let (_, outbox) = referee_match(alloc, text, config, now, events)?;
    Ok(outbox)
}

/// Referees a match as `referee` does, and returns the match with its outbox, so that its record can be written.
pub fn referee_match(
    alloc: Global,
    text: &[u8],
    config: Config,
    now: u64,
    events: &[Event<&[u8]>],
) -> Result<(Match, Outbox), RefereeError>
    ensures played { IfOk result (λ played.
        IsMatchOf text.now config now (map event_of events.now) played.0 played.1) }
    ensures refused { IfErr result (IsRefusedFor text.now config now (map event_of events.now)) }
{
    let (mut refereed, outbox) = open(alloc, text, config, now)?;
    let outbox = go_on(&mut refereed, outbox, events)?;
    Ok((refereed, outbox))
}

/// Loads the game and makes the match.
fn open(
    alloc: Global,
    text: &[u8],
    config: Config,
    now: u64,
) -> Result<(Match, Outbox), RefereeError>
    ensures opens { IfOk result (λ made. OpensText text.now config now made.0 made.1) }
    ensures history { IfOk result (λ made. HasHistory made.0) }
    ensures refused { IfErr result (λ error.
        (events : List AbstractEvent) → IsRefusedFor text.now config now events error) }
{
    let game = match load(alloc, text) {
        Ok(game) => game,
        Err(error) => return Err(not_loaded(alloc, error)),
    };
    match Match::new(alloc, game, text, config, now) {
        Ok(opened) => Ok(opened),
        Err(MatchError::Config) => Err(RefereeError::Config),
        Err(MatchError::Memory) => Err(RefereeError::Memory {
            done: 0,
            outgoing: Outbox::without_seats(alloc),
        }),
    }
}

/// The error of a text that was not loaded.
fn not_loaded(alloc: Global, error: LoadError) -> RefereeError
    ensures { (text : List ℕ) (config : Config) (now : ℕ) (events : List AbstractEvent) →
        IsRefused text error → IsRefusedFor text config now events result }
{
    if error.is_memory() {
        return RefereeError::Memory {
            done: 0,
            outgoing: Outbox::without_seats(alloc),
        };
    }
    RefereeError::Load(error)
}

/// Referees a match that was made: handles the events in turn.
fn go_on(
    refereed: &mut Match,
    mut outbox: Outbox,
    events: &[Event<&[u8]>],
) -> Result<Outbox, RefereeError>
    requires works { refereed.old.failed ≡ false }
    requires seats { length outbox ≡ seats_of refereed.old.game }
    requires history { HasHistory refereed.old }
    ensures played { (text : List ℕ) (config : Config) (now : ℕ) →
        OpensText text config now refereed.old outbox →
        IfOk result (IsMatchOf text config now (map event_of events.now) refereed.new) }
    ensures stopped { (text : List ℕ) (config : Config) (now : ℕ) →
        OpensText text config now refereed.old outbox →
        IfErr result (StopsMatch text config now (map event_of events.now)) }
{
    match handle_all(refereed, events, &mut outbox) {
        Ok(()) => Ok(outbox),
        Err(done) => Err(RefereeError::Memory {
            done,
            outgoing: outbox,
        }),
    }
}

/// Handles the events in turn. An error has the number of events that were handled. The match had not ended after them.
fn handle_all(
    refereed: &mut Match,
    events: &[Event<&[u8]>],
    outbox: &mut Outbox,
) -> Result<(), usize>
    requires works { refereed.old.failed ≡ false }
    requires seats { length outbox.old ≡ seats_of refereed.old.game }
    ensures all { OnOk result (StepsAll refereed.old outbox.old (map event_of events.now)
        refereed.new outbox.new) }
    ensures some { IfErr result (λ done.
        (done < length events.now)
        × (state : MatchState)
        × StepsAll refereed.old outbox.old (take done (map event_of events.now)) state outbox.new
        × (state.play.outcome ≡ None)) }
    ensures history { OnOk result (HasHistory refereed.old → HasHistory refereed.new) }
{
    for (done, event) in events.iter().enumerate() {
        if refereed.step(*event, outbox).is_err() {
            return Err(done);
        }
    }
    Ok(())
}
