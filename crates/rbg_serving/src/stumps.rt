//! Taking out of a script the messages that weren't complete, so that new streams can go on where the old ones were cut.

use rbg_base::Memory;
use rbg_match::MESSAGE_LIMIT;
use rbg_script::Event;

/// Cuts off, for each of so many seats, the bytes of a message that wasn't complete. One that was too long already, so
/// that the rest of it is passed over, is completed at this moment instead. So each seat's stream ends with a zero byte, or
/// is empty.
pub fn cut_stumps(seats: usize, at: u64, events: &mut Vec<Event<Vec<u8>>>) -> Result<(), Memory> {
    for seat in 1..=seats as u64 {
        let stump = stump_of(seat, events.as_slice());
        if stump <= MESSAGE_LIMIT {
            cut_back(seat, stump, events.as_mut_slice());
        } else {
            complete(seat, at, events)?;
        }
    }
    Ok(())
}

/// How many bytes stand after the last zero byte of a seat's stream.
fn stump_of(seat: u64, events: &[Event<Vec<u8>>]) -> usize {
    let mut stump: usize = 0;
    for event in events {
        if let Some(bytes) = piece_of(seat, event) {
            stump = match bytes.iter().rposition(|byte| *byte == 0) {
                Some(last) => bytes.len() - 1 - last,
                None => stump.saturating_add(bytes.len()),
            };
        }
    }
    stump
}

/// The bytes of an event, if it is a piece of that seat's stream.
fn piece_of(seat: u64, event: &Event<Vec<u8>>) -> Option<&[u8]> {
    match event {
        Event::Piece {
            source: sender,
            bytes,
            ..
        } if *sender == seat => Some(bytes.as_slice()),
        _ => None,
    }
}

/// Takes so many of the last bytes out of a seat's stream. Each event keeps its moment.
fn cut_back(seat: u64, count: usize, events: &mut [Event<Vec<u8>>]) {
    let mut left = count;
    for event in events.iter_mut().rev() {
        if let Event::Piece {
            source: sender,
            bytes,
            ..
        } = event
        {
            if *sender == seat {
                let cut = left.min(bytes.len());
                bytes.truncate(bytes.len() - cut);
                left -= cut;
            }
        }
    }
}

/// Adds the zero byte that completes a message.
fn complete(seat: u64, at: u64, events: &mut Vec<Event<Vec<u8>>>) -> Result<(), Memory> {
    let mut bytes = Vec::new(*events.allocator());
    bytes.push(0)?;
    events.push(Event::Piece {
        source: seat,
        at,
        bytes,
    })?;
    Ok(())
}
