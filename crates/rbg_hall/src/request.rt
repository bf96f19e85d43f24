//! For which table a line asks.
ghost use Rattle.std.specs.Prelude.{◌≡◌, ◌+◌, ◌<◌, ◌^◌, ℕ, IfSome, option_map};
ghost use Rattle.rbg_wire.specs.Inboxes.{item_of};
ghost use Rattle.rbg_wire.specs.Messages.{join_message, message_of, message_text};
ghost use Rattle.rbg_hall.specs.Requests.{requested};
ghost use Rattle.rbg_hall.specs.internal.First.{index_within};

use rbg_wire::{Message, Took, read_message};

/// The table that a message asks for, whatever its number.
fn join_in(message: Message<'_>) -> Option<u64>
    ensures found { IfSome result (λ table. message_of message.entry ≡ join_message table) }
    ensures only { (table : ℕ) → message_of message.entry ≡ join_message table → result ≡ Some table }
{
    match message {
        Message::Join { table } => Some(table),
        Message::Who { .. } => None,
        Message::Game { .. } => None,
        Message::Limits { .. } => None,
        Message::Moved { .. } => None,
        Message::Refused { .. } => None,
        Message::Ended { .. } => None,
    }
}

/// The table that a text asks for, whatever its number.
fn join_of(text: &[u8]) -> Option<u64>
    ensures found { IfSome result (λ table. text.now ≡ message_text (join_message table)) }
    ensures only { (table : ℕ) → table < 2 ^ 64 → text.now ≡ message_text (join_message table) → result ≡ Some table }
{
    match read_message(text) {
        Ok(message) => join_in(message),
        Err(_) => None,
    }
}

/// The index of the table, of so many, that an item asks for.
pub(crate) fn table_of(took: Took<'_>, tables: usize) -> Option<usize>
    ensures { option_map (λ (index : ℕ). index + 1) result ≡ requested tables (item_of took.entry) }
{
    match took {
        Took::Message(text) => index_of(join_of(text), tables),
        Took::TooLong => None,
    }
}

/// The index of a table that is there.
fn index_of(table: Option<u64>, tables: usize) -> Option<usize>
    ensures { result ≡ index_within table tables }
{
    match table {
        Some(table) => {
            if table < 1 || table > tables as u64 {
                return None;
            }
            Some(table as usize - 1)
        }
        None => None,
    }
}
