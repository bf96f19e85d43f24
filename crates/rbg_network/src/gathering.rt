//! How the players of a match are waited for: each that connects gets the lowest free seat, and gives it back if its
//! connection is closed before all have come.
ghost use Rattle.std.specs.Prelude.{◌≡◌, length, IfOk};

use crate::network::is_nothing_yet;
use crate::{Network, News, StreamLine};
use rbg_serving::{Clock, Pause};
use std::alloc::{AllocError, Global};
use std::io::{self, Read, Write};
use thiserror::Error;

/// Why a match doesn't begin.
#[derive(Debug, Drop, Error)]
pub enum GatherError {
    /// No connection can be accepted, or the clock can't be read.
    #[error("no connection can be accepted")]
    Device(#[from] io::Error),
    /// Not all have come in time.
    #[error("not all have come in time")]
    Absent,
    #[error("out of memory")]
    Memory(#[from(alloc)] AllocError),
}

/// How an organiser wants players to be waited for.
#[derive(Clone, Copy)]
pub struct Hosting {
    /// To which port they connect.
    pub port: u16,
    /// In how many seconds all have to come, if there is a bound.
    pub wait: Option<u64>,
    /// Whether no news is told.
    pub quiet: bool,
}

impl Hosting {
    /// Tells news, unless none is wanted.
    pub fn tell<N: Network>(self, network: &mut N, news: &News<'_>) {
        if !self.quiet {
            network.tell(news);
        }
    }

    /// What is waited for until all have come.
    pub(crate) fn pause(self) -> Pause {
        Pause::Playing {
            due: self.wait.map(|seconds| seconds.saturating_mul(1_000)),
        }
    }
}

/// Waits until a player is there for each seat. Returns their lines, in order of seats.
pub fn gather<N: Network>(
    alloc: Global,
    network: &mut N,
    listener: &mut N::Listener,
    seats: usize,
    hosting: Hosting,
) -> Result<Vec<StreamLine<N::Stream>>, GatherError>
    ensures { IfOk result (λ lines. length lines.items ≡ seats) }
{
    let mut taken = free_seats(alloc, seats)?;
    let mut clock = network.start_clock()?;
    fill(network, listener, &mut clock, taken.as_mut_slice(), hosting)?;
    lines_of(alloc, taken)
}

/// That many seats, of which none is taken.
fn free_seats<S: Read + Write + Drop>(
    alloc: Global,
    seats: usize,
) -> Result<Vec<Option<StreamLine<S>>>, AllocError>
    ensures { IfOk result (λ free. length free.items ≡ seats) }
{
    let mut free = Vec::with_capacity(alloc, seats)?;
    for _ in 0..seats {
        free.push(None)?;
    }
    Ok(free)
}

/// Waits until each seat is taken by a connection that is open.
fn fill<N: Network>(
    network: &mut N,
    listener: &mut N::Listener,
    clock: &mut N::Clock,
    seats: &mut [Option<StreamLine<N::Stream>>],
    hosting: Hosting,
) -> Result<(), GatherError> {
    for _ in 0..u64::MAX {
        if is_full(seats) {
            clock.wait(Pause::Playing { due: Some(0) });
            free_closed(network, seats, hosting);
            if is_full(seats) {
                return Ok(());
            }
        }
        if is_late(network, clock, hosting) {
            return Err(GatherError::Absent);
        }
        match network.accept(listener) {
            Ok(stream) => take_seat(network, StreamLine::new(stream), seats, hosting),
            Err(error) if is_nothing_yet(&error) => {
                free_closed(network, seats, hosting);
                clock.wait(hosting.pause());
            }
            Err(error) => return Err(GatherError::Device(error)),
        }
    }
    Err(GatherError::Absent)
}

/// Whether the time is over in which all have to come. Then this is told, whatever is wanted.
pub(crate) fn is_late<N: Network>(network: &mut N, clock: &mut N::Clock, hosting: Hosting) -> bool {
    let Some(seconds) = hosting.wait else {
        return false;
    };
    let late = clock.now() / 1_000 >= seconds;
    if late {
        network.tell(&News::Absent { seconds });
    }
    late
}

/// Whether each seat is taken.
pub(crate) fn is_full<S: Read + Write + Drop>(seats: &[Option<StreamLine<S>>]) -> bool {
    lowest_free(seats) == seats.len()
}

/// The index of the lowest free seat, or the number of seats if each is taken.
fn lowest_free<S: Read + Write + Drop>(seats: &[Option<StreamLine<S>>]) -> usize {
    for index in 0..seats.len() {
        if seats[index].is_none() {
            return index;
        }
    }
    seats.len()
}

/// Gives a line the lowest free seat. Where none is free, its connection is closed.
fn take_seat<N: Network>(
    network: &mut N,
    line: StreamLine<N::Stream>,
    seats: &mut [Option<StreamLine<N::Stream>>],
    hosting: Hosting,
) {
    let index = lowest_free(seats);
    if let Some(seat) = seats.get_mut(index) {
        *seat = Some(line);
        hosting.tell(
            network,
            &News::Connected {
                seat: index.saturating_add(1),
            },
        );
    }
}

/// Frees each seat whose connection is closed.
fn free_closed<N: Network>(
    network: &mut N,
    seats: &mut [Option<StreamLine<N::Stream>>],
    hosting: Hosting,
) {
    for index in 0..seats.len() {
        if is_closed(network, &seats[index]) {
            seats[index] = None;
            hosting.tell(network, &News::Left { seat: index + 1 });
        }
    }
}

/// Whether a seat is taken by a connection that is closed.
pub(crate) fn is_closed<N: Network>(network: &mut N, seat: &Option<StreamLine<N::Stream>>) -> bool {
    match seat {
        Some(line) => match line.stream() {
            Some(stream) => network.is_closed(stream),
            None => false,
        },
        None => false,
    }
}

/// The lines of the seats, all of which are taken.
pub(crate) fn lines_of<S: Read + Write + Drop>(
    alloc: Global,
    seats: Vec<Option<StreamLine<S>>>,
) -> Result<Vec<StreamLine<S>>, GatherError>
    ensures { IfOk result (λ lines. length lines.items ≡ length seats.items) }
{
    let mut lines = Vec::with_capacity(alloc, seats.len())?;
    for seat in seats {
        match seat {
            Some(line) => lines.push(line)?,
            None => return Err(GatherError::Absent),
        }
    }
    Ok(lines)
}
