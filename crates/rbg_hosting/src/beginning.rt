//! A match from its beginning.
ghost use Rattle.std.specs.Prelude.{◌≡◌, length, IfOk};
ghost use Rattle.rbg_game.specs.Loading.{Loads};
ghost use Rattle.rbg_match.specs.PlayingOn.{seats_of};
ghost use Rattle.rbg_hosting.specs.Played.{IsPlayedMatch};

use crate::bounded::{MatchInPlay, play_on};
use crate::joining::{accept_players, tell_names, tell_stalled};
use crate::record::begin_record;
use crate::{Keeping, Serving, ServingFault};
use rbg_game::{Game, load};
use rbg_match::{Match, Outbox};
use rbg_network::{Named, Network, News, begin_log};
use rbg_serving::{Clock, Line, Log, LoggedMatch, Opening};
use std::alloc::Global;

/// A match that is to begin.
#[derive(Drop)]
pub struct NewMatch<'a, W: Log> {
    pub game: Game,
    /// The game's description.
    pub text: &'a [u8],
    pub log: W,
}

/// Referees a match of the text's game between the first players that connect to the port. Its log is made before they
/// are waited for.
pub(crate) fn serve_text<N: Network>(
    alloc: Global,
    text: &[u8],
    network: &mut N,
    serving: &Serving<'_>,
) -> Result<Match, ServingFault>
    ensures { IfOk result (λ played. IsPlayedMatch text.now played) }
{
    let game = load(alloc, text)?;
    begin_record(network, &serving.keeping)?;
    let log = create_log(alloc, text, network, &serving.keeping)?;
    let mut lines = accept_players(alloc, network, game.players(), serving)?;
    tell_names(network, serving, &None);
    serving.hosting.tell(network, &News::Begins);
    let new_match = NewMatch { game, text, log };
    let played = serve_lines(alloc, new_match, network, serving, lines.as_mut_slice());
    tell_stalled(network, serving, lines.as_slice());
    played
}

/// The new log of a match, if one is wanted.
fn create_log<N: Network>(
    alloc: Global,
    text: &[u8],
    network: &mut N,
    keeping: &Keeping<'_>,
) -> Result<Option<N::Log>, ServingFault> {
    let Some(name) = keeping.log else {
        return Ok(None);
    };
    let named = Named {
        description: text,
        names: keeping.names,
    };
    Ok(Some(begin_log(alloc, network, name, keeping.sync, named)?))
}

/// Referees a match over the lines, one for each seat, until it has ended. A clock begins with it.
pub fn serve_lines<N: Network, W: Log, L: Line>(
    alloc: Global,
    new_match: NewMatch<'_, W>,
    network: &mut N,
    serving: &Serving<'_>,
    lines: &mut [L],
) -> Result<Match, ServingFault>
    requires loaded { Loads new_match.text.now new_match.game }
    requires lines { length lines.old ≡ seats_of new_match.game }
    ensures { IfOk result (λ played. IsPlayedMatch new_match.entry.text.now played) }
{
    let mut clock = network.start_clock()?;
    serve_by(alloc, new_match, serving, lines, &mut clock)
}

/// Referees a match over the lines by a clock.
fn serve_by<W: Log, L: Line, C: Clock>(
    alloc: Global,
    new_match: NewMatch<'_, W>,
    serving: &Serving<'_>,
    lines: &mut [L],
    clock: &mut C,
) -> Result<Match, ServingFault>
    requires loaded { Loads new_match.text.now new_match.game }
    requires lines { length lines.old ≡ seats_of new_match.game }
    ensures { IfOk result (λ played. IsPlayedMatch new_match.entry.text.now played) }
{
    let now = clock.now();
    let (logged, outbox) = open(alloc, new_match, serving, now)?;
    let in_play = MatchInPlay {
        logged,
        outbox,
        moment: now,
    };
    play_on(in_play, serving, lines, clock)
}

/// A match that begins at this moment, and what its seats are sent.
fn open<W: Log>(
    alloc: Global,
    new_match: NewMatch<'_, W>,
    serving: &Serving<'_>,
    now: u64,
) -> Result<(LoggedMatch<W>, Outbox), ServingFault>
    requires { Loads new_match.text.now new_match.game }
    ensures played { IfOk result (λ made. IsPlayedMatch new_match.entry.text.now made.0.played) }
    ensures game { IfOk result (λ made. made.0.played.game ≡ new_match.entry.game) }
    ensures seats { IfOk result (λ made. length made.1 ≡ seats_of made.0.played.game) }
{
    let NewMatch { game, text, log } = new_match;
    let opening = Opening {
        text,
        config: serving.config,
        now,
    };
    let made = LoggedMatch::open(alloc, game, opening, log)?;
    Ok(made)
}
