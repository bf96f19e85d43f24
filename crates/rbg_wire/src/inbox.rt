//! The stream of one seat: bytes that come in pieces, and the messages that they complete.
ghost use Rattle.std.specs.Prelude.{◌≡◌, ◌<◌, [], OnOk, OnErr, slice_get};
ghost use Rattle.std.specs.Option.{option_map};
ghost use Rattle.rbg_wire.specs.Streams.{Stream, incomplete, with_bytes};

use crate::cursor::{Cursor, Found};
use rbg_base::Memory;
use std::alloc::Global;
use std::marker::Model;

/// An item of a stream.
#[derive(Clone, Copy, PartialEq, Eq)]
pub enum Took<'a> {
    /// A message, without its zero byte.
    Message(&'a [u8]),
    /// A message has more bytes than the limit. The rest of it, up to its zero byte, is dropped.
    TooLong,
}

/// The bytes of one stream. Its messages are taken in order. Contracts see the limit, the items that are complete and
/// not taken yet, and the rest.
#[derive(Drop)]
pub struct Inbox {
    limit: usize,
    bytes: Vec<u8>,
    cursor: Cursor,
}

impl Model for Inbox {
    ghost use Rattle.rbg_wire.specs.Streams.{Stream};
    ghost use Rattle.rbg_wire.specs.Cursors.{IsCursorOf, unread};

    ghost Value = { Stream };

    ghost view = { λ inbox.
        let left = unread inbox.limit inbox.cursor inbox.bytes.items in
        record { limit = inbox.limit; items = left.items; rest = left.rest } };

    ghost invariant = { λ inbox. IsCursorOf inbox.cursor inbox.bytes.items };
}

impl Inbox {
    ghost use Rattle.std.specs.Borrow.{sem};
    ghost use Rattle.rbg_wire.specs.Inboxes.{item_of, LosesFirst};

    /// An empty inbox. A message has at most `limit` bytes.
    pub fn new(alloc: Global, limit: usize) -> Inbox
        ensures { result ≡ record { limit = limit; items = []; rest = incomplete [] } }
    {
        Inbox {
            limit,
            bytes: Vec::new(alloc),
            cursor: Cursor {
                start: 0,
                looked: 0,
                dropping: false,
            },
        }
    }

    /// Adds the next piece of the stream. On an error the inbox is unchanged.
    pub fn feed(&mut self, piece: &[u8]) -> Result<(), Memory>
        ensures ok { OnOk result (self.new ≡ with_bytes self.old piece.now) }
        ensures err { OnErr result (self.new ≡ self.old) }
    {
        self.cursor.drop_read(&mut self.bytes);
        self.bytes.extend_from_slice(piece)
    }

    /// Takes the next item, or returns None if none is complete. A message is borrowed and not copied.
    pub fn take(&mut self) -> Option<Took<'_>>
        ensures item { option_map item_of result ≡ slice_get self.old.items 0 }
        ensures* after { sem 𝓛 (LosesFirst self.entry) }
    {
        match self.cursor.next(&self.bytes, self.limit)? {
            Found::Message { from, to } => Some(Took::Message(&self.bytes[from..to])),
            Found::TooLong => Some(Took::TooLong),
        }
    }
}
