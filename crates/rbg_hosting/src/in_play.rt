//! From which moment the matches of a hall go on.
ghost use Rattle.std.specs.Prelude.{◌≡◌};
ghost use Rattle.rbg_hosting.specs.Moments.{IsSince};
ghost use Rattle.rbg_hosting.specs.internal.Moments.{IsEarlierOf, IsFirst, IsLastOrNone};

use rbg_hall::Hall;
use rbg_serving::Log;

/// The moment from which the first so many matches of a hall go on.
pub(crate) fn since_of<W: Log>(hall: &Hall<W>, matches: usize) -> u64
    ensures { IsSince hall.now.state.tables matches result }
{
    match first_moment(hall, matches) {
        Some(first) => first,
        None => 0,
    }
}

/// The first of the last moments of the first so many matches that are in play, if one is.
fn first_moment<W: Log>(hall: &Hall<W>, matches: usize) -> Option<u64>
    ensures { IsFirst hall.now.state.tables matches result }
{
    let mut first = None;
    for index in 0..matches {
        first = earlier(first, last_moment(hall, index as u64 + 1));
    }
    first
}

/// The last moment of the match of a number, if it is in play.
fn last_moment<W: Log>(hall: &Hall<W>, number: u64) -> Option<u64>
    ensures { IsLastOrNone hall.now.state.tables number result }
{
    let played = hall.begun(number)?;
    match played.outcome() {
        Some(_) => None,
        None => Some(played.moment()),
    }
}

/// The earlier of two moments, where there are two.
fn earlier(one: Option<u64>, other: Option<u64>) -> Option<u64>
    ensures { IsEarlierOf one other result }
{
    match (one, other) {
        (Some(one), Some(other)) => Some(one.min(other)),
        (Some(one), None) => Some(one),
        (None, other) => other,
    }
}
