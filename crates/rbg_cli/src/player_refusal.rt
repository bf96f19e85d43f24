//! A message that a player refused, as it is printed.

use rbg_player::PlayerError;
use std::fmt::{self, Formatter};

/// Why a player gave up. Its text is `<number> <name>`.
#[derive(Clone, Copy, Debug)]
pub struct PlayerRefusal(pub PlayerError);

impl fmt::Display for PlayerRefusal {
    fn fmt<W: fmt::Write>(&self, f: &mut Formatter<W>) -> fmt::Result {
        match self.0 {
            PlayerError::BadMessage => write!(f, "1 BadMessage"),
            PlayerError::NotLegal => write!(f, "2 NotLegal"),
            PlayerError::Over => write!(f, "3 Over"),
            PlayerError::Memory => write!(f, "Memory"),
            PlayerError::NoSeat => write!(f, "5 NoSeat"),
        }
    }
}
