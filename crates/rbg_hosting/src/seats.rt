//! The players of a hall: how they are waited for, and what is reported of them.
ghost use Rattle.std.specs.Prelude.{◌≡◌, ◌<◌, ◌≤◌, ◌++◌, [], length, replicate, slice_index_or, IfOk, OnOk};
ghost use Rattle.rbg_hall.specs.Halls.{begun_at};
ghost use Rattle.rbg_hall.specs.TableLimits.{lines_in_all};
ghost use Rattle.rbg_hosting.specs.internal.Resuming.{place_for, places_from};

use crate::fault::ServingFault;
use crate::going_on::Going;
use crate::joining::most_of;
use crate::names::{names_in, tell_match_names};
use crate::past::Past;
use crate::task::Serving;
use rbg_hall::{Hall, LINES};
use rbg_network::{Hosting, LinePlace, MatchNews, Network, News, StreamLine, seat_players};
use rbg_serving::Log;
use std::alloc::{AllocError, Global};
use std::io::{Read, Write};

/// The logs from which matches go on are replaced by the new ones, and players are waited for. Returns the lines, and the clock
/// by which the matches are played.
pub(crate) fn seat_all<N: Network>(
    alloc: Global,
    network: &mut N,
    hall: &Hall<N::Log>,
    going: Going<'_>,
) -> Result<(Vec<StreamLine<N::Stream>>, N::Clock), ServingFault>
    ensures lines { IfOk result (λ made. length made.0.items ≤ lines_in_all) }
    ensures clock { IfOk result (λ made. N.Clock.told made.1 []) }
{
    replace_logs(network, going.pasts)?;
    let places = places_of(alloc, hall, going.players)?;
    let lines = fill_places(alloc, network, places.as_slice(), going.serving)?;
    tell_matches(network, hall, going);
    let clock = network.start_clock()?;
    Ok((lines, clock))
}

/// The logs from which matches go on are replaced by the new ones.
fn replace_logs<N: Network>(network: &mut N, pasts: &[Past]) -> Result<(), ServingFault> {
    for past in pasts {
        network.replace_log(past.log.as_str())?;
    }
    Ok(())
}

/// For whom each line is.
fn places_of<W: Log>(
    alloc: Global,
    hall: &Hall<W>,
    players: &[u64],
) -> Result<Vec<LinePlace>, AllocError>
    ensures { IfOk result (λ places. places.items ≡ places_from hall.now.state.tables 1 players.now) }
{
    let mut places = Vec::new(alloc);
    for index in 0..players.len() {
        let number = index as u64 + 1;
        let count = count_at(players, index);
        add_places(place_of(hall, number), count, &mut places)?;
    }
    Ok(places)
}

/// How many players the match at an index has.
pub(crate) fn count_at(players: &[u64], index: usize) -> u64
    requires { index < length players.now }
    ensures { result ≡ slice_index_or players.now index 0 }
{
    players[index]
}

/// Adds so many places.
fn add_places(place: LinePlace, count: u64, places: &mut Vec<LinePlace>) -> Result<(), AllocError>
    ensures { OnOk result (places.new.items ≡ places.old.items ++ replicate count place) }
{
    for _ in 0..count {
        places.push(place)?;
    }
    Ok(())
}

/// For whom a line of the match of this number is.
fn place_of<W: Log>(hall: &Hall<W>, number: u64) -> LinePlace
    ensures { result ≡ place_for (begun_at hall.now.state.tables number) number }
{
    match hall.begun(number) {
        Some(played) => match played.outcome() {
            Some(_) => LinePlace::Nobody,
            None => LinePlace::Known(number),
        },
        None => LinePlace::New(number),
    }
}

/// Waits until a player is there for each place that is for one. Where none is, nobody can connect.
fn fill_places<N: Network>(
    alloc: Global,
    network: &mut N,
    places: &[LinePlace],
    serving: &Serving<'_>,
) -> Result<Vec<StreamLine<N::Stream>>, ServingFault>
    ensures { IfOk result (λ lines. length lines.items ≤ lines_in_all) }
{
    if places.len() > LINES {
        return Err(ServingFault::Config);
    }
    if are_for_nobody(places) {
        return Ok(Vec::new(alloc));
    }
    let hosting = serving.hosting;
    let port = hosting.port;
    let mut listener = network.listen(port)?;
    hosting.tell(network, &News::Listening { port });
    hosting.tell(network, &most_of(serving));
    Ok(seat_players(alloc, network, &mut listener, places, hosting)?)
}

/// Whether no place is for a player.
fn are_for_nobody(places: &[LinePlace]) -> bool {
    for place in places {
        match place {
            LinePlace::Nobody => (),
            LinePlace::New(_) => return false,
            LinePlace::Known(_) => return false,
        }
    }
    true
}

/// Reports of each match that has not ended who sits where, as far as that is known, and that it begins or goes on.
fn tell_matches<N: Network>(network: &mut N, hall: &Hall<N::Log>, going: Going<'_>) {
    for index in 0..going.players.len() {
        let number = index as u64 + 1;
        if let Some(news) = start_news(hall, number) {
            let hosting = going.serving.hosting;
            match going.serving.keeping.names {
                Some(names) => {
                    tell_match_names(network, hosting, number, names_in(Some(names), index));
                }
                None => tell_names_of_log(network, hosting, number, going.pasts.get(index)),
            }
            hosting.tell(network, &News::OfMatch { number, news });
        }
    }
}

/// Reports who sits where in the match of a number, if the game file of its log says that.
fn tell_names_of_log<N: Network>(
    network: &mut N,
    hosting: Hosting,
    number: u64,
    past: Option<&Past>,
) {
    if let Some(past) = past {
        if let Some(names) = &past.names {
            tell_match_names(network, hosting, number, Some(names.as_str()));
        }
    }
}

/// The news that the match of a number begins or goes on, unless it has ended.
fn start_news<W: Log>(hall: &Hall<W>, number: u64) -> Option<MatchNews<'static>> {
    match place_of(hall, number) {
        LinePlace::Nobody => None,
        LinePlace::New(_) => Some(MatchNews::Begins),
        LinePlace::Known(_) => Some(MatchNews::GoesOn),
    }
}

/// Reports which seats took nothing of what was left for them after the end. The lines are in order of matches and seats.
pub(crate) fn tell_stalled<N: Network>(
    network: &mut N,
    hosting: Hosting,
    lines: &[StreamLine<N::Stream>],
    players: &[u64],
) {
    for (index, line) in lines.iter().enumerate() {
        if line.has_stalled() {
            tell_stalled_at(network, hosting, index as u64, players);
        }
    }
}

/// Reports that the seat of a line took nothing.
fn tell_stalled_at<N: Network>(network: &mut N, hosting: Hosting, line: u64, players: &[u64]) {
    let mut first: u64 = 0;
    for (index, many) in players.iter().enumerate() {
        let next = first.saturating_add(*many);
        if first <= line && line < next {
            let number = index as u64 + 1;
            let seat = ((line - first) as usize).saturating_add(1);
            let news = MatchNews::TookNothing { seat };
            hosting.tell(network, &News::OfMatch { number, news });
        }
        first = next;
    }
}
