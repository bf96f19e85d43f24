//! How much of the buffer of a stream is read.
ghost use Rattle.std.specs.Prelude.{◌≡◌, ℕ, ◌≤◌, not, true, false, [], length, drop, vec_len, IfSome, IfNone};
ghost use Rattle.std.specs.Bool.{OnFalse};
ghost use Rattle.rbg_wire.specs.Bytes.{LacksByte};
ghost use Rattle.rbg_wire.specs.Cursors.{FindsNext, IsCursorOf, IsEnd, unread};

use crate::bytes::first_place;

/// How much of a buffer is read.
#[derive(Clone, Copy)]
pub(crate) struct Cursor {
    // The index of the first byte that is not taken.
    pub start: usize,
    // No byte from `start` up to here is zero.
    pub looked: usize,
    // Whether the bytes at `start` belong to a message that is too long.
    pub dropping: bool,
}

/// An item in the buffer.
#[derive(Clone, Copy)]
pub(crate) enum Found {
    Message { from: usize, to: usize },
    TooLong,
}

impl Cursor {
    /// Drops the bytes that were read from the buffer, once they are half of it or more. So at most one byte is moved
    /// for each byte that is dropped.
    pub(crate) fn drop_read(&mut self, bytes: &mut Vec<u8>)
        requires { IsCursorOf self.old bytes.old.items }
        ensures cursor { IsCursorOf self.new bytes.new.items }
        ensures same { (limit : ℕ)
            → unread limit self.new bytes.new.items ≡ unread limit self.old bytes.old.items }
    {
        if self.start < bytes.len() - self.start {
            return;
        }
        drop_front(bytes, self.start);
        self.looked -= self.start;
        self.start = 0;
    }

    /// The next item of the buffer, if one is complete. The cursor moves past it.
    pub(crate) fn next(&mut self, bytes: &[u8], limit: usize) -> Option<Found>
        requires { IsCursorOf self.old bytes.now }
        ensures { FindsNext limit bytes.now self.old self.new result }
    {
        if self.dropping && !self.skip(bytes) {
            return None;
        }
        self.next_item(bytes, limit)
    }

    // The same, if nothing is to be dropped.
    fn next_item(&mut self, bytes: &[u8], limit: usize) -> Option<Found>
        requires cursor { IsCursorOf self.old bytes.now }
        requires kept { self.old.dropping ≡ false }
        ensures { FindsNext limit bytes.now self.old self.new result }
    {
        let end = self.look(bytes);
        if self.looked - self.start > limit {
            self.start += limit + 1;
            self.dropping = true;
            return Some(Found::TooLong);
        }
        let to = end?;
        let from = self.start;
        self.start = to + 1;
        self.looked = to + 1;
        Some(Found::Message { from, to })
    }

    // Drops the rest of a message that is too long. Returns whether its end has come.
    fn skip(&mut self, bytes: &[u8]) -> bool
        requires cursor { IsCursorOf self.old bytes.now }
        requires dropping { self.old.dropping ≡ true }
        ensures cursor { IsCursorOf self.new bytes.now }
        ensures same { (limit : ℕ)
            → unread limit self.new bytes.now ≡ unread limit self.old bytes.now }
        ensures dropping { self.new.dropping ≡ not result }
        ensures all { OnFalse result (drop self.new.start bytes.now ≡ []) }
    {
        match self.look(bytes) {
            None => {
                self.start = self.looked;
                false
            }
            Some(end) => {
                self.start = end + 1;
                self.looked = end + 1;
                self.dropping = false;
                true
            }
        }
    }

    // The index of the next zero byte.
    fn look(&mut self, bytes: &[u8]) -> Option<usize>
        requires { IsCursorOf self.old bytes.now }
        ensures start { self.new.start ≡ self.old.start }
        ensures dropping { self.new.dropping ≡ self.old.dropping }
        ensures cursor { IsCursorOf self.new bytes.now }
        ensures found { IfSome result (λ end. (self.new.looked ≡ end)
            × IsEnd bytes.now self.new.start end) }
        ensures none { IfNone result (
            (self.new.looked ≡ length bytes.now) × LacksByte 0 (drop self.new.start bytes.now)) }
    {
        match first_place(0, &bytes[self.looked..]) {
            None => {
                self.looked = bytes.len();
                None
            }
            Some(at) => {
                self.looked += at;
                Some(self.looked)
            }
        }
    }
}

// Drops the first bytes.
fn drop_front(bytes: &mut Vec<u8>, count: usize)
    requires { count ≤ vec_len bytes.old }
    ensures { bytes.new.items ≡ drop count bytes.old.items }
{
    let len = bytes.len();
    bytes.copy_within(count.., 0);
    bytes.truncate(len - count);
}
