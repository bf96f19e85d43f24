//! The players of a match.
ghost use Rattle.std.specs.Prelude.{◌≡◌, length, IfOk};

use crate::{Serving, ServingFault};
use rbg_network::{Network, News, StreamLine, gather};
use std::alloc::Global;

/// Waits until that many players have connected to the port. Their lines are in order of seats.
pub(crate) fn accept_players<N: Network>(
    alloc: Global,
    network: &mut N,
    players: usize,
    serving: &Serving<'_>,
) -> Result<Vec<StreamLine<N::Stream>>, ServingFault>
    ensures { IfOk result (λ lines. length lines.items ≡ players) }
{
    let port = serving.hosting.port;
    let mut listener = network.listen(port)?;
    serving.hosting.tell(network, &News::Listening { port });
    serving.hosting.tell(network, &most_of(serving));
    Ok(gather(alloc, network, &mut listener, players, serving.hosting)?)
}

/// The news of how long a match may take.
pub(crate) fn most_of(serving: &Serving<'_>) -> News<'static> {
    match serving.keeping.minutes {
        Some(minutes) => News::MostMinutes { minutes },
        None => News::MostRounds {
            rounds: serving.rounds,
        },
    }
}

/// Tells who sits where, as far as the organiser says, or else the log that goes on.
pub(crate) fn tell_names<N: Network>(
    network: &mut N,
    serving: &Serving<'_>,
    of_log: &Option<String>,
) {
    if let Some(names) = serving.keeping.names {
        tell_each(network, serving, names);
    } else if let Some(names) = of_log {
        tell_each(network, serving, names.as_str());
    }
}

/// Tells who sits where by names with a comma between two of them.
fn tell_each<N: Network>(network: &mut N, serving: &Serving<'_>, names: &str) {
    for (index, name) in names.split(',').enumerate() {
        let seat = index.saturating_add(1);
        serving.hosting.tell(network, &News::Sits { seat, name });
    }
}

/// Tells which seats took nothing of what was left for them after the end.
pub(crate) fn tell_stalled<N: Network>(
    network: &mut N,
    serving: &Serving<'_>,
    lines: &[StreamLine<N::Stream>],
) {
    for (index, line) in lines.iter().enumerate() {
        if line.has_stalled() {
            let seat = index.saturating_add(1);
            serving.hosting.tell(network, &News::TookNothing { seat });
        }
    }
}
