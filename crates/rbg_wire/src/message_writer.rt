//! The calls that write a message, or a field of one, at the end of a list of bytes.
ghost use Rattle.std.specs.Prelude.{◌++◌, codes, decimal};
ghost use Rattle.std.specs.List.{flat_map};
ghost use Rattle.rbg_wire.specs.Messages.{
  message_of,
  move_message,
  ArePairs,
  HasSpelling,
  spelling,
  message_text,
  outcome_text,
  pairs_text,
  pair_text,
};
ghost use Rattle.rbg_wire.specs.Writing.{Appends, AppendsAll};

use crate::undo::all_or_nothing;
use crate::{Message, Outcome};
use itoa::Buffer;
use rbg_base::{Memory, Pair};

/// Appends the message with its zero byte. On an error the bytes are unchanged.
pub fn write_message(message: &Message<'_>, out: &mut Vec<u8>) -> Result<(), Memory>
    requires { HasSpelling (message_of message.now) }
    ensures { AppendsAll out.old.items out.new.items (spelling (message_of message.now)) result }
{
    let len = out.len();
    let written = put_message(message, out);
    all_or_nothing(written, len, out)
}

/// Appends the message of the move of these pairs, with its zero byte. On an error the bytes are unchanged.
pub fn write_move(pairs: &[Pair], out: &mut Vec<u8>) -> Result<(), Memory>
    requires { ArePairs pairs.now }
    ensures { AppendsAll out.old.items out.new.items (spelling (move_message pairs.now)) result }
{
    let len = out.len();
    let written = put_move(pairs, out);
    all_or_nothing(written, len, out)
}

/// Appends the digits of the number. On an error the bytes are unchanged.
pub fn write_number(number: u64, out: &mut Vec<u8>) -> Result<(), Memory>
    ensures { AppendsAll out.old.items out.new.items (decimal number) result }
{
    let mut buffer = Buffer::new();
    out.extend_from_slice(buffer.format(number).as_bytes())
}

/// Appends the pairs, as in a message of a move. They need not have a spelling: there may be none of them, or numbers
/// of more than 9 digits. On an error the bytes are unchanged.
pub fn write_pairs(pairs: &[Pair], out: &mut Vec<u8>) -> Result<(), Memory>
    ensures { AppendsAll out.old.items out.new.items (pairs_text pairs.now) result }
{
    let len = out.len();
    let written = put_pairs(pairs, out);
    all_or_nothing(written, len, out)
}

/// Appends the outcome, as in its message. It need not have a spelling: it may have no scores. On an error the bytes
/// are unchanged.
pub fn write_outcome(outcome: &Outcome, out: &mut Vec<u8>) -> Result<(), Memory>
    ensures { AppendsAll out.old.items out.new.items (outcome_text outcome.now) result }
{
    let len = out.len();
    let written = put_outcome(outcome, out);
    all_or_nothing(written, len, out)
}

#[tactic(auto, unfolding(crate::specs::Messages::spelling))]
fn put_message(message: &Message<'_>, out: &mut Vec<u8>) -> Result<(), Memory>
    ensures { Appends out.old.items out.new.items (spelling (message_of message.now)) result }
{
    put_text(message, out)?;
    out.push(0)?;
    Ok(())
}

#[tactic(auto, unfolding(crate::specs::Messages::spelling))]
fn put_move(pairs: &[Pair], out: &mut Vec<u8>) -> Result<(), Memory>
    ensures { Appends out.old.items out.new.items (spelling (move_message pairs.now)) result }
{
    put_move_text(pairs, out)?;
    out.push(0)?;
    Ok(())
}

#[tactic(auto, unfolding(crate::specs::Messages::message_text))]
fn put_move_text(pairs: &[Pair], out: &mut Vec<u8>) -> Result<(), Memory>
    ensures { Appends out.old.items out.new.items (message_text (move_message pairs.now)) result }
{
    out.push(b'M')?;
    put_pairs(pairs, out)
}

#[tactic(auto, unfolding(crate::specs::Messages::message_text))]
fn put_text(message: &Message<'_>, out: &mut Vec<u8>) -> Result<(), Memory>
    ensures { Appends out.old.items out.new.items (message_text (message_of message.now)) result }
{
    match message {
        Message::Who { player, name } => {
            put_number(b"W", *player, out)?;
            put_bytes(b" ", name, out)
        }
        Message::Game { text } => put_bytes(b"G", text, out),
        Message::Limits { turn_ms, refusals } => {
            put_number(b"L", *turn_ms, out)?;
            put_number(b" ", *refusals, out)
        }
        Message::Moved { pairs } => put_move_text(pairs.as_slice(), out),
        Message::Refused { reason } => put_number(b"R", reason.number(), out),
        Message::Ended { outcome } => put_outcome(outcome, out),
        Message::Join { table } => put_number(b"H", *table, out),
    }
}

#[tactic(auto, unfolding(crate::specs::Messages::outcome_text))]
fn put_outcome(outcome: &Outcome, out: &mut Vec<u8>) -> Result<(), Memory>
    ensures { Appends out.old.items out.new.items (outcome_text outcome.now) result }
{
    match outcome {
        Outcome::Finished { scores } => {
            out.extend_from_slice(b"E0")?;
            put_scores(scores.as_slice(), out)
        }
        Outcome::Time { player } => put_number(b"E1 ", *player, out),
        Outcome::Refusals { player } => put_number(b"E2 ", *player, out),
        Outcome::Gone { player } => put_number(b"E3 ", *player, out),
        Outcome::Heavy => out.extend_from_slice(b"E4"),
    }
}

fn put_scores(scores: &[u64], out: &mut Vec<u8>) -> Result<(), Memory>
    ensures { Appends out.old.items out.new.items (flat_map (λ score.
        codes " " ++ decimal score) scores.now) result }
{
    for score in scores {
        put_number(b" ", *score, out)?;
    }
    Ok(())
}

#[tactic(auto, unfolding(crate::specs::Messages::pairs_text))]
fn put_pairs(pairs: &[Pair], out: &mut Vec<u8>) -> Result<(), Memory>
    ensures { Appends out.old.items out.new.items (pairs_text pairs.now) result }
{
    let Some((first, others)) = pairs.split_first() else {
        return Ok(());
    };
    put_pair(b"", *first, out)?;
    put_more_pairs(others, out)
}

fn put_more_pairs(pairs: &[Pair], out: &mut Vec<u8>) -> Result<(), Memory>
    ensures { Appends out.old.items out.new.items (flat_map (λ p.
        codes " " ++ pair_text p) pairs.now) result }
{
    for pair in pairs {
        put_pair(b" ", *pair, out)?;
    }
    Ok(())
}

fn put_pair(head: &[u8], pair: Pair, out: &mut Vec<u8>) -> Result<(), Memory>
    ensures { Appends out.old.items out.new.items (head.now ++ pair_text pair) result }
{
    put_number(head, u64::from(pair.vertex), out)?;
    put_number(b" ", u64::from(pair.position), out)
}

/// Appends a head, and then the digits of a number. On an error some of that may be there.
pub fn put_number(head: &[u8], number: u64, out: &mut Vec<u8>) -> Result<(), Memory>
    ensures { Appends out.old.items out.new.items (head.now ++ decimal number) result }
{
    let mut buffer = Buffer::new();
    put_bytes(head, buffer.format(number).as_bytes(), out)
}

// Appends a head, and then bytes.
fn put_bytes(head: &[u8], bytes: &[u8], out: &mut Vec<u8>) -> Result<(), Memory>
    ensures { Appends out.old.items out.new.items (head.now ++ bytes.now) result }
{
    out.extend_from_slice(head)?;
    out.extend_from_slice(bytes)
}
