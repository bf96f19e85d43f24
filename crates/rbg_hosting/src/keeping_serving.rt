//! A match between players at a port, from its beginning or from its log on.
ghost use Rattle.std.specs.Prelude.{IfOk};
ghost use Rattle.rbg_hosting.specs.Played.{IsPlayedMatch};

use crate::beginning::serve_text;
use crate::resuming::{ResumedMatch, resume_text};
use crate::{Serving, ServingFault};
use rbg_console::Files;
use rbg_match::Match;
use rbg_network::{Network, News};
use std::alloc::Global;

/// Referees a match of the text's game between the first players that connect to the port, and tells how it ended. Where
/// the log of a match is to go on, it is that one.
pub fn serve_match<F: Files, N: Network>(
    alloc: Global,
    text: &[u8],
    files: &mut F,
    network: &mut N,
    serving: &Serving<'_>,
) -> Result<Match, ServingFault>
    ensures { IfOk result (λ played. IsPlayedMatch text.now played) }
{
    let played = match serving.keeping.resume {
        Some(log) => {
            let resumed = ResumedMatch {
                text,
                log,
                serving: &*serving,
            };
            resume_text(alloc, resumed, files, network)
        }
        None => serve_text(alloc, text, network, serving),
    };
    tell_end(network, serving, &played);
    played
}

/// Tells how a match ended, or that it didn't.
fn tell_end<N: Network>(
    network: &mut N,
    serving: &Serving<'_>,
    played: &Result<Match, ServingFault>,
) {
    match played {
        Ok(played) => {
            if let Some(outcome) = played.outcome() {
                serving.hosting.tell(network, &News::Ended { outcome });
            }
        }
        Err(ServingFault::Rounds) => serving.hosting.tell(network, &bound_of(serving)),
        Err(_) => {}
    }
}

/// The news that a match didn't end within its bound.
fn bound_of(serving: &Serving<'_>) -> News<'static> {
    match serving.keeping.minutes {
        Some(minutes) => News::OutOfTime { minutes },
        None => News::Unfinished {
            rounds: serving.rounds,
        },
    }
}
