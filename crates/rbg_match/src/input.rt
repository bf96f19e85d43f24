//! The inputs of a match: what its events mean.

use rbg_wire::Took;

/// An input of a match. Seats are numbered from 1.
#[derive(Clone, Copy)]
pub(crate) enum Input<'a> {
    /// A moment of the clock alone.
    Tick,
    /// A seat's stream has ended.
    Gone { seat: usize },
    /// A seat's stream has completed an item.
    Sent { seat: usize, took: Took<'a> },
}
