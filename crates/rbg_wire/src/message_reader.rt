//! The call that reads a message. It allocates nothing.
ghost use Rattle.std.specs.Prelude.{◌≡◌, ◌≢◌, ◌↔◌, decimal, IfOk, IfSome, IfNone, IsErrOf, IsOkAnd};
ghost use Rattle.rbg_wire.specs.declared.message.Reason.{Reason as AnyReason};
ghost use Rattle.rbg_wire.specs.Messages.{AbstractMessage, message_of, reason_number, who_letter, game_letter, limits_letter, move_letter};
ghost use Rattle.rbg_wire.specs.Reading.{SpellsMessage, SpellsMove, SpellsTooMany, HasFewPairs, ReadsMessage, ReadsAfterLetter};

use crate::bytes::first_place;
use crate::move_reader::pairs_of;
use crate::number_reader::cut_number;
use crate::outcome_reader::outcome_after_letter;
use crate::{Message, Reason, WireError};
use rbg_base::{is_name, number_of_decimal};

/// The message that the whole text spells, without its zero byte.
///
/// Returns `TooManyPairs` if the text is the message of a move of more than 200 pairs, and `Malformed` if it is no
/// message.
pub fn read_message(text: &[u8]) -> Result<Message<'_>, WireError>
    // A message that is returned is the one that the text spells.
    ensures found { IfOk result (λ m. SpellsMessage text.now (message_of m)
        × HasFewPairs (message_of m)) }
    // If the text spells a message, that message is returned.
    ensures only { (message : AbstractMessage)
        → SpellsMessage text.now message
        → HasFewPairs message
        → IsOkAnd result (λ m. message_of m ≡ message) }
    ensures too_many { IsErrOf result WireError.TooManyPairs ↔ SpellsTooMany (SpellsMove text.now) }
    ensures malformed { IsErrOf result WireError.Malformed
        ↔ ((message : AbstractMessage) → SpellsMessage text.now message → ⊥) }
{
    message_in(text)
}

fn message_in(text: &[u8]) -> Result<Message<'_>, WireError>
    ensures { ReadsMessage text.now result }
{
    let Some((letter, rest)) = text.split_first() else {
        return Err(WireError::Malformed);
    };
    if *letter == b'M' {
        let pairs = pairs_of(rest)?;
        return Ok(Message::Moved { pairs });
    }
    other_message(*letter, rest).ok_or(WireError::Malformed)
}

// Any message but one of a move, by its letter and the text after it.
fn other_message(letter: u8, text: &[u8]) -> Option<Message<'_>>
    requires { letter ≢ move_letter }
    ensures { ReadsAfterLetter letter text.now result }
{
    match letter {
        b'W' => who_in(text),
        b'G' => game_in(text),
        b'L' => limits_in(text),
        b'R' => Some(Message::Refused {
            reason: reason_in(text)?,
        }),
        b'E' => Some(Message::Ended {
            outcome: outcome_after_letter(text)?,
        }),
        b'H' => Some(Message::Join {
            table: number_of_decimal(text)?,
        }),
        _ => None,
    }
}

fn who_in(text: &[u8]) -> Option<Message<'_>>
    ensures { ReadsAfterLetter who_letter text.now result }
{
    let (player, name) = cut_number(text)?;
    if !is_name(name) {
        return None;
    }
    Some(Message::Who { player, name })
}

fn game_in(text: &[u8]) -> Option<Message<'_>>
    ensures { ReadsAfterLetter game_letter text.now result }
{
    match first_place(0, text) {
        None => Some(Message::Game { text }),
        Some(_) => None,
    }
}

fn limits_in(text: &[u8]) -> Option<Message<'_>>
    ensures { ReadsAfterLetter limits_letter text.now result }
{
    let (turn_ms, refusals) = cut_number(text)?;
    let refusals = number_of_decimal(refusals)?;
    Some(Message::Limits { turn_ms, refusals })
}

fn reason_in(text: &[u8]) -> Option<Reason>
    ensures found { IfSome result (λ reason. text.now ≡ decimal (reason_number reason)) }
    ensures none { IfNone result ((reason : AnyReason) → text.now ≡ decimal (reason_number reason)
        → ⊥) }
{
    match number_of_decimal(text)? {
        1 => Some(Reason::Unreadable),
        2 => Some(Reason::OutOfTurn),
        3 => Some(Reason::NotLegal),
        4 => Some(Reason::MoveTooLong),
        5 => Some(Reason::NoSeat),
        _ => None,
    }
}
