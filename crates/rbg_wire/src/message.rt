//! Messages, and the reasons for refusals.
ghost use Rattle.std.specs.Prelude.{◌≡◌};

use crate::Outcome;
use rbg_base::Move;

/// Why a seat's message is refused.
#[derive(Clone, Copy)]
pub enum Reason {
    /// 1: the message is too long, or is not the message of a move.
    Unreadable,
    /// 2: the seat is not the mover.
    OutOfTurn,
    /// 3: the move is not legal.
    NotLegal,
    /// 4: the move has more than 200 pairs.
    MoveTooLong,
    /// 5: there is no such seat.
    NoSeat,
}

impl Reason {
    ghost use Rattle.rbg_wire.specs.Messages.{reason_number};

    /// The number of the reason in a message.
    pub fn number(self) -> u64
        ensures { result ≡ reason_number self }
    {
        match self {
            Reason::Unreadable => 1,
            Reason::OutOfTurn => 2,
            Reason::NotLegal => 3,
            Reason::MoveTooLong => 4,
            Reason::NoSeat => 5,
        }
    }
}

/// A message. It borrows its name and its text.
#[derive(Drop)]
pub enum Message<'a> {
    /// `W<number> <name>`: the player of the seat, by number and name. A name is a letter or `_`, followed by letters,
    /// digits or `_`.
    Who { player: u64, name: &'a [u8] },
    /// `G<description>`: the text of the game, byte for byte. It has no zero byte.
    Game { text: &'a [u8] },
    /// `L<turn ms> <refusals>`: the time for a turn, and how many refusals are allowed.
    Limits { turn_ms: u64, refusals: u64 },
    /// `M<pairs>`: the move that is made.
    Moved { pairs: Move },
    /// `R<reason>`: the seat's message is refused.
    Refused { reason: Reason },
    /// `E..`: the match has ended.
    Ended { outcome: Outcome },
    /// `H<match>`: the line joins this match.
    Join { table: u64 },
}
