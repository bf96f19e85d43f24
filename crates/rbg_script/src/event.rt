//! The events of a match or a hall.

/// An `m` line: a message that a seat sends.
#[derive(Clone, Copy)]
pub struct ScriptMessage<'a> {
    pub seat: u64,
    /// The moment in milliseconds.
    pub at: u64,
    /// The message, without the zero byte that ends it.
    pub text: &'a [u8],
}

/// A piece of a stream, the end of a stream, or a moment of the clock.
///
/// `source` is the number of a seat of a match, from 1, or of a line of a hall, from 0. Moments are in milliseconds. `B`
/// is how the bytes are held: a script owns them, as `Vec<u8>`, and a match or a hall is lent them, as `&[u8]`.
#[derive(Clone, Copy, PartialEq, Eq, Drop)]
pub enum Event<B> {
    /// The next bytes of a stream have arrived.
    Piece { source: u64, at: u64, bytes: B },
    /// A stream has ended.
    Ended { source: u64, at: u64 },
    /// The clock shows this moment.
    Tick { at: u64 },
}

impl Event<&[u8]> {
    ghost use Rattle.std.specs.Prelude.{◌≡◌};
    ghost use Rattle.rbg_script.specs.Events.{event_of, moment_of};

    /// The moment of the event.
    pub fn at(&self) -> u64
        ensures { result ≡ moment_of (event_of self.now) }
    {
        match *self {
            Event::Piece { at, .. } => at,
            Event::Ended { at, .. } => at,
            Event::Tick { at } => at,
        }
    }
}

impl Event<Vec<u8>> {
    ghost use Rattle.std.specs.Prelude.{◌≡◌};
    ghost use Rattle.rbg_script.specs.Events.{event_of, owned_event_of};

    /// The same event. It borrows the bytes.
    pub fn lend(&self) -> Event<&[u8]>
        ensures { event_of result ≡ owned_event_of self.now }
    {
        match self {
            Event::Piece { source, at, bytes } => Event::Piece {
                source: *source,
                at: *at,
                bytes: bytes.as_slice(),
            },
            Event::Ended { source, at } => Event::Ended {
                source: *source,
                at: *at,
            },
            Event::Tick { at } => Event::Tick { at: *at },
        }
    }
}
