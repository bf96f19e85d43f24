//! What comes to a match: events, and whole items in place of their bytes.

use rbg_script::Event;
use rbg_wire::Took;

/// What comes to a match: an event, or an item in place of the piece that holds it and nothing else. Seats are numbered
/// from 1. Moments are in milliseconds.
#[derive(Clone, Copy)]
pub enum Arrival<'a> {
    /// An event.
    Plain(Event<&'a [u8]>),
    /// A seat's stream has completed an item.
    Item { seat: u64, at: u64, took: Took<'a> },
}

impl Arrival<'_> {
    ghost use Rattle.std.specs.Prelude.{◌≡◌};
    ghost use Rattle.rbg_match.specs.Arrivals.{arrival_of};
    ghost use Rattle.rbg_script.specs.Events.{moment_of};

    /// The moment at which it comes.
    pub fn at(&self) -> u64
        ensures { result ≡ moment_of (arrival_of self.now) }
    {
        match *self {
            Arrival::Plain(event) => event.at(),
            Arrival::Item { at, .. } => at,
        }
    }
}
