//! Connections to players of this process.
ghost use Rattle.std.specs.Prelude.{◌≡◌, length, IfOk};

use crate::choice::SeatChooser;
use crate::client::Client;
use crate::played_line::PlayedLine;
use rbg_network::{GatherError, Network, News, StreamLine, is_nothing_yet};
use rbg_serving::{Clock, Pause};
use std::alloc::Global;
use std::io::{self, ErrorKind};

/// Lines to that many players of this process, all connected to a listener of their own. With a seed they choose their moves by
/// chance.
pub fn connect_players<N: Network>(
    alloc: Global,
    network: &mut N,
    players: usize,
    seed: Option<u64>,
) -> Result<Vec<PlayedLine<N::Stream>>, GatherError>
    ensures { IfOk result (λ lines. length lines.items ≡ players) }
{
    let mut listener = network.listen(0)?;
    connect_lines(alloc, network, &mut listener, players, seed)
}

fn connect_lines<N: Network>(
    alloc: Global,
    network: &mut N,
    listener: &mut N::Listener,
    players: usize,
    seed: Option<u64>,
) -> Result<Vec<PlayedLine<N::Stream>>, GatherError>
    ensures { IfOk result (λ lines. length lines.items ≡ players) }
{
    let port = network.port_of(listener)?;
    let mut lines = Vec::with_capacity(alloc, players)?;
    for index in 0..players {
        let choice = SeatChooser::of_seat(seed, index as u64 + 1);
        lines.push(connect_line(alloc, network, port, listener, choice)?)?;
    }
    Ok(lines)
}

/// A line whose player is connected to the port, which is the listener's.
fn connect_line<N: Network>(
    alloc: Global,
    network: &mut N,
    port: u16,
    listener: &mut N::Listener,
    choice: SeatChooser,
) -> io::Result<PlayedLine<N::Stream>> {
    let client = Client::new(alloc, network.connect(port)?, choice);
    let line = StreamLine::new(accept_made(network, listener)?);
    Ok(PlayedLine::new(line, client))
}

/// How often a connection that was made is looked for.
const TRIES: usize = 10;

/// A connection that was made to the listener.
fn accept_made<N: Network>(network: &mut N, listener: &mut N::Listener) -> io::Result<N::Stream> {
    let mut clock = network.start_clock()?;
    for _ in 0..TRIES {
        match network.accept(listener) {
            Ok(stream) => return Ok(stream),
            Err(error) if is_nothing_yet(&error) => clock.wait(Pause::Playing { due: None }),
            Err(error) => return Err(error),
        }
    }
    Err(io::Error::from(ErrorKind::TimedOut))
}

/// Tells which of the players of this process gave up, and why.
pub fn tell_who_gave_up<N: Network>(network: &mut N, lines: &[PlayedLine<N::Stream>]) {
    for (index, line) in lines.iter().enumerate() {
        if let Some(error) = line.fault() {
            let seat = index + 1;
            network.tell(&News::GaveUp { seat, error });
        }
    }
}
