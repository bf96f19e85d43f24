//! Warnings.

use crate::named_thing::NamedThing;
use rbg_base::Position;

/// A warning for an author about a game without a fault.
#[derive(Clone, Copy)]
pub enum Warning {
    /// At the position a number is assigned to a variable whose bound is smaller, so the assignment never runs.
    TooGreat { position: Position },
    /// A player to whom no switch gives the turn, a piece that is on no vertex at the beginning and in no off, a
    /// variable that the rules never name, or a direction that they never write.
    Unused { thing: NamedThing },
}
