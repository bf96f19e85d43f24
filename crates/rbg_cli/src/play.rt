//! The command `play`: a seat of a match over a connection.

use crate::choice::SeatChooser;
use crate::client::Client;
use crate::command::{Bound, Seat};
use crate::devices::Devices;
use crate::fault::Fault;
use crate::printed::outcome_line;
use rbg_console::{Files, Status};
use rbg_network::{ClientError, Network, News};
use rbg_player::Heard;
use rbg_serving::{Clock, Pause};
use rbg_wire::Outcome;
use std::alloc::Global;
use std::io::{Read, Write};

/// Plays a seat of the match at the port, or of this one of the matches there, and prints the match's last message.
pub fn run_play<F: Files, N: Network, R, W: Write>(
    alloc: Global,
    seat: Seat,
    devices: &mut Devices<F, N, R, W>,
) -> Status {
    let played = play(alloc, seat, &mut devices.network);
    devices.report_lines("the answer", played)
}

/// Plays a seat of the match at the port, or of this one of the matches there, and returns the match's last message. A
/// read is a round.
fn play<N: Network>(alloc: Global, seat: Seat, network: &mut N) -> Result<Vec<u8>, Fault> {
    let stream = network.connect(seat.port)?;
    let mut client = match seat.table {
        Some(table) => Client::join(alloc, stream, table)?,
        None => Client::new(alloc, stream, SeatChooser::First),
    };
    play_on(alloc, seat, network, &mut client)
}

/// Plays on a connection, and returns the match's last message.
fn play_on<N: Network>(
    alloc: Global,
    seat: Seat,
    network: &mut N,
    client: &mut Client<N::Stream>,
) -> Result<Vec<u8>, Fault> {
    match play_rounds(seat, network, client) {
        Ok(outcome) => Ok(outcome_line(alloc, &outcome)?),
        Err(fault) => Err(stopped(network, seat.bound, fault)),
    }
}

/// Plays, and tells once for which player.
fn play_rounds<N: Network>(
    seat: Seat,
    network: &mut N,
    client: &mut Client<N::Stream>,
) -> Result<Outcome, Fault> {
    let mut told = false;
    let mut clock = network.start_clock()?;
    for _ in 0..seat.bound.most_rounds() {
        if seat.bound.is_over(&mut clock) {
            break;
        }
        wait_for(client, &mut clock);
        let heard = match client.patient_turn() {
            Ok(heard) => heard,
            Err(error) => return Err(lost(network, seat.port, error)),
        };
        told = told || tell_seat(network, client);
        if let Heard::Ended(outcome) = heard {
            return Ok(outcome);
        }
    }
    Err(Fault::Rounds)
}

/// For how many milliseconds nothing may come before a player says its move.
const QUIET_MS: u64 = 5;

/// Waits until something comes. Where the player has something to say, it is said once nothing has come for a while.
fn wait_for<S: Read + Write + Drop, C: Clock>(client: &Client<S>, clock: &mut C) {
    let due = if client.has_unsent() {
        Some(clock.now().saturating_add(QUIET_MS))
    } else {
        None
    };
    clock.wait(Pause::Playing { due });
}

/// The fault of a client. Where its connection failed, or ended before the match, this is told.
fn lost<N: Network>(network: &mut N, port: u16, error: ClientError) -> Fault {
    if matches!(error, ClientError::Device) {
        network.tell(&News::Lost { port, error });
    }
    Fault::from(error)
}

/// The fault that stopped a player. Where its reads or its minutes are over, this is told.
fn stopped<N: Network>(network: &mut N, bound: Bound, fault: Fault) -> Fault {
    if matches!(&fault, Fault::Rounds) {
        match bound.minutes {
            Some(minutes) => network.tell(&News::OutOfTime { minutes }),
            None => network.tell(&News::Unfinished {
                rounds: bound.rounds,
            }),
        }
    }
    fault
}

/// Tells for which player the client plays. False if it isn't known.
fn tell_seat<N: Network>(network: &mut N, client: &Client<N::Stream>) -> bool {
    match client.seat() {
        Some(news) => {
            network.tell(&news);
            true
        }
        None => false,
    }
}
