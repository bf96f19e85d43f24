//! The printed lines of a match: for each seat in order, each of its messages.
ghost use Rattle.std.specs.Prelude.{◌≡◌, ◌++◌, List, ℕ, IfOk, OnOk};
ghost use Rattle.rbg_referee.specs.Printed.{AreMessages, IsPrinted, message_line, printed_message, seat_lines};

use rbg_match::Outbox;
use rbg_wire::{after_text, cut_at};
use std::alloc::{AllocError, Global};

/// `<seat> <message>` for each message, with its line feed; the description is `<seat> G <its bytes>`.
pub fn match_lines(alloc: Global, outbox: &Outbox) -> Result<Vec<u8>, AllocError>
    ensures { IfOk result (λ lines. IsPrinted outbox.now lines.items) }
{
    let mut lines = Vec::new(alloc);
    for index in 0..outbox.seats() {
        let seat = index + 1;
        push_seat(alloc, seat, outbox.bytes(seat), &mut lines)?;
    }
    Ok(lines)
}

/// The lines of the messages to a seat.
pub fn push_seat(
    alloc: Global,
    seat: usize,
    bytes: &[u8],
    lines: &mut Vec<u8>,
) -> Result<(), AllocError>
    ensures { OnOk result ((messages : List (List ℕ))
        × AreMessages bytes.now messages
        × (lines.new.items ≡ lines.old.items ++ seat_lines seat messages)) }
{
    let mut left = bytes;
    while let Some((message, rest)) = cut_at(0, left) {
        push_line(alloc, seat, message, lines)?;
        left = rest;
    }
    Ok(())
}

/// The line of a message to a seat.
fn push_line(
    alloc: Global,
    seat: usize,
    message: &[u8],
    lines: &mut Vec<u8>,
) -> Result<(), AllocError>
    ensures { OnOk result (lines.new.items ≡ lines.old.items ++ message_line seat message.now) }
{
    let number = format!(in alloc; "{seat} ")?;
    lines.extend_from_slice(number.as_bytes())?;
    push_message(alloc, message, lines)?;
    lines.push(b'\n')?;
    Ok(())
}

/// The printed form of a message.
#[tactic(auto, using(crate::proofs::PrintedLemmas::game_message, crate::proofs::PrintedLemmas::other_message))]
fn push_message(alloc: Global, message: &[u8], lines: &mut Vec<u8>) -> Result<(), AllocError>
    ensures { OnOk result (lines.new.items ≡ lines.old.items ++ printed_message message.now) }
{
    match after_text(b"G", message) {
        Some(text) => {
            let line = format!(in alloc; "G {}", text.len())?;
            lines.extend_from_slice(line.as_bytes())
        }
        None => lines.extend_from_slice(message),
    }
}
