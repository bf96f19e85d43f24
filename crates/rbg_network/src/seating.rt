//! How the players of a hall's matches are waited for: each that connects says for which match it is, and gets the lowest
//! free place of this match. Who asks for none that is free, or leaves before all have come, makes room for another.
ghost use Rattle.std.specs.Prelude.{◌≡◌, ◌<◌, length, IfOk, IfSome};

use crate::gathering::{GatherError, Hosting, is_closed, is_full, is_late, lines_of};
use crate::network::is_nothing_yet;
use crate::{MatchNews, Network, News, StreamLine};
use rbg_match::MESSAGE_LIMIT;
use rbg_serving::{Clock, Line, Pause, Polled};
use rbg_wire::{Message, Reason, cut_at, read_message, write_message};
use std::alloc::{AllocError, Global};
use std::io::{Read, Write};

/// For whom a line of a hall is.
#[derive(Clone, Copy)]
pub enum LinePlace {
    /// For nobody.
    Nobody,
    /// For a player of the match of this number. The hall hears that it asks for a seat.
    New(u64),
    /// For a player of this match, which goes on. The hall has heard that the line asks for a seat. Who had the seat before
    /// isn't known: the order of connecting decides.
    Known(u64),
}

/// How many may wait for a place. If one more comes, the one who has waited longest leaves.
const MOST_GUESTS: usize = 128;

/// The players that are waited for.
#[derive(Clone, Copy)]
struct Awaited<'a> {
    /// For whom each line is.
    places: &'a [LinePlace],
    /// How they are waited for.
    hosting: Hosting,
}

/// Who has connected, and has no place yet.
#[derive(Drop)]
struct Guest<S: Read + Write + Drop> {
    line: StreamLine<S>,
    /// What has come so far.
    said: Vec<u8>,
}

/// What a guest asks for.
#[derive(Clone, Copy)]
enum Asks {
    /// Its first message has not come.
    NothingYet,
    /// A seat of the match of this number.
    Seat(u64),
    /// Something else.
    Other,
    /// It has left.
    Left,
}

/// Waits until a player is there for each place that is for one. Returns the lines of the places, in their order.
pub fn seat_players<N: Network>(
    alloc: Global,
    network: &mut N,
    listener: &mut N::Listener,
    places: &[LinePlace],
    hosting: Hosting,
) -> Result<Vec<StreamLine<N::Stream>>, GatherError>
    ensures { IfOk result (λ lines. length lines.items ≡ length places.now) }
{
    let mut taken = lines_at_first(alloc, places)?;
    let mut guests = Vec::with_capacity(alloc, MOST_GUESTS)?;
    let awaited = Awaited { places, hosting };
    fill_places(
        network,
        listener,
        awaited,
        taken.as_mut_slice(),
        &mut guests,
    )?;
    lines_of(alloc, taken)
}

/// Of each place its line, if it is for nobody.
fn lines_at_first<S: Read + Write + Drop>(
    alloc: Global,
    places: &[LinePlace],
) -> Result<Vec<Option<StreamLine<S>>>, AllocError>
    ensures { IfOk result (λ taken. length taken.items ≡ length places.now) }
{
    let mut taken = Vec::with_capacity(alloc, places.len())?;
    for place in places {
        taken.push(line_at_first(*place))?;
    }
    Ok(taken)
}

/// The line of a place, if it is for nobody.
fn line_at_first<S: Read + Write + Drop>(place: LinePlace) -> Option<StreamLine<S>> {
    match place {
        LinePlace::Nobody => Some(StreamLine::of_nobody()),
        LinePlace::New(_) => None,
        LinePlace::Known(_) => None,
    }
}

/// Waits until each place is taken by a connection that is open, or is for nobody. A clock begins with it.
fn fill_places<N: Network>(
    network: &mut N,
    listener: &mut N::Listener,
    awaited: Awaited<'_>,
    taken: &mut [Option<StreamLine<N::Stream>>],
    guests: &mut Vec<Guest<N::Stream>>,
) -> Result<(), GatherError> {
    let mut clock = network.start_clock()?;
    for _ in 0..u64::MAX {
        hear_guests(network, awaited, taken, guests);
        if is_full(taken) {
            clock.wait(Pause::Playing { due: Some(0) });
            free_closed(network, awaited, taken);
            if is_full(taken) {
                return Ok(());
            }
        }
        if is_late(network, &mut clock, awaited.hosting) {
            return Err(GatherError::Absent);
        }
        match network.accept(listener) {
            Ok(stream) => let_in(guests, stream)?,
            Err(error) if is_nothing_yet(&error) => {
                free_closed(network, awaited, taken);
                clock.wait(awaited.hosting.pause());
            }
            Err(error) => return Err(GatherError::Device(error)),
        }
    }
    Err(GatherError::Absent)
}

/// Who has connected waits for a place.
fn let_in<S: Read + Write + Drop>(guests: &mut Vec<Guest<S>>, stream: S) -> Result<(), AllocError> {
    if guests.len() >= MOST_GUESTS {
        guests.remove(0);
    }
    let said = Vec::new(*guests.allocator());
    guests.push(Guest {
        line: StreamLine::new(stream),
        said,
    })?;
    Ok(())
}

/// Hears what has come from the guests. Who asks for a place gets one that is free, or is told that there is none.
fn hear_guests<N: Network>(
    network: &mut N,
    awaited: Awaited<'_>,
    taken: &mut [Option<StreamLine<N::Stream>>],
    guests: &mut Vec<Guest<N::Stream>>,
) {
    for _ in 0..guests.len() {
        if guests.is_empty() {
            return;
        }
        let mut guest = guests.remove(0);
        match guest.hear() {
            Asks::NothingYet => stay(guests, guest),
            Asks::Seat(number) => seat_guest(network, awaited, taken, guest, number),
            Asks::Other => guest.refuse(),
            Asks::Left => {}
        }
    }
}

/// A guest waits on, if there is memory for that.
fn stay<S: Read + Write + Drop>(guests: &mut Vec<Guest<S>>, guest: Guest<S>) {
    let _stays = guests.push(guest);
}

/// A guest gets the lowest free place of a match, or is told that there is none.
fn seat_guest<N: Network>(
    network: &mut N,
    awaited: Awaited<'_>,
    taken: &mut [Option<StreamLine<N::Stream>>],
    guest: Guest<N::Stream>,
    number: u64,
) {
    let Awaited { places, hosting } = awaited;
    let Some(index) = free_place(places, taken, number) else {
        guest.refuse();
        return;
    };
    let known = matches!(places.get(index), Some(LinePlace::Known(_)));
    taken[index] = Some(guest.into_line(known));
    let seat = seat_at(index, number, places);
    let news = MatchNews::Connected { seat };
    hosting.tell(network, &News::OfMatch { number, news });
}

/// The index of the lowest free place of a match.
fn free_place<S: Read + Write + Drop>(
    places: &[LinePlace],
    taken: &[Option<StreamLine<S>>],
    number: u64,
) -> Option<usize>
    ensures { IfSome result (λ index. index < length taken.now) }
{
    for (index, line) in taken.iter().enumerate() {
        if line.is_none() && is_for_at(places, index, number) {
            return Some(index);
        }
    }
    None
}

/// Whether the place at an index is for a player of the match of this number.
fn is_for_at(places: &[LinePlace], index: usize, number: u64) -> bool {
    match places.get(index) {
        Some(place) => is_for(*place, number),
        None => false,
    }
}

/// Whether a place is for a player of the match of this number.
fn is_for(place: LinePlace, number: u64) -> bool {
    match place {
        LinePlace::Nobody => false,
        LinePlace::New(one) => one == number,
        LinePlace::Known(one) => one == number,
    }
}

/// The seat of the place at an index, which is for a player of the match of this number.
fn seat_at(index: usize, number: u64, places: &[LinePlace]) -> usize {
    let mut seat: usize = 1;
    for (other, place) in places.iter().enumerate() {
        if other < index && is_for(*place, number) {
            seat = seat.saturating_add(1);
        }
    }
    seat
}

/// Frees each place whose connection is closed.
fn free_closed<N: Network>(
    network: &mut N,
    awaited: Awaited<'_>,
    taken: &mut [Option<StreamLine<N::Stream>>],
) {
    for index in 0..taken.len() {
        if is_closed(network, &taken[index]) {
            taken[index] = None;
            tell_left(network, awaited, index);
        }
    }
}

/// Tells that the place at an index is free again.
fn tell_left<N: Network>(network: &mut N, awaited: Awaited<'_>, index: usize) {
    let Awaited { places, hosting } = awaited;
    match places.get(index) {
        Some(LinePlace::New(number)) | Some(LinePlace::Known(number)) => {
            let seat = seat_at(index, *number, places);
            let news = MatchNews::Left { seat };
            let number = *number;
            hosting.tell(network, &News::OfMatch { number, news });
        }
        Some(LinePlace::Nobody) | None => {}
    }
}

impl<S: Read + Write + Drop> Guest<S> {
    /// Hears what has come from it.
    fn hear(&mut self) -> Asks {
        let mut buffer = [0; MESSAGE_LIMIT];
        match self.line.poll(&mut buffer) {
            Polled::Got(count) => self.note(&buffer[..count]),
            Polled::Nothing => Asks::NothingYet,
            Polled::Ended | Polled::Failed => Asks::Left,
        }
    }

    /// Notes what has come. Where there is no memory for it, it has left.
    fn note(&mut self, bytes: &[u8]) -> Asks {
        match self.said.extend_from_slice(bytes) {
            Ok(()) => self.asks(),
            Err(_) => Asks::Left,
        }
    }

    /// What it asks for, by all that has come.
    fn asks(&self) -> Asks {
        let Some((message, _)) = cut_at(0, self.said.as_slice()) else {
            return if self.said.len() > MESSAGE_LIMIT {
                Asks::Other
            } else {
                Asks::NothingYet
            };
        };
        match read_message(message) {
            Ok(Message::Join { table }) => Asks::Seat(table),
            _ => Asks::Other,
        }
    }

    /// Its line, which gives what has come already, without the first message if it is known that it asks for the seat.
    fn into_line(self, known: bool) -> StreamLine<S> {
        let Guest { mut line, mut said } = self;
        if known {
            leave_first_out(&mut said);
        }
        line.give_first(said);
        line
    }

    /// Tells it that there is no seat. Then its connection is closed.
    fn refuse(self) {
        let Guest { mut line, said } = self;
        let mut bytes = Vec::new(*said.allocator());
        let refusal = Message::Refused {
            reason: Reason::NoSeat,
        };
        if write_message(&refusal, &mut bytes).is_ok() {
            let _told = line.put(bytes.as_slice());
        }
    }
}

/// Leaves out the first message.
fn leave_first_out(said: &mut Vec<u8>) {
    let heard = match cut_at(0, said.as_slice()) {
        Some((message, _)) => message.len().saturating_add(1),
        None => 0,
    };
    let heard = heard.min(said.len());
    said.drain(..heard);
}
