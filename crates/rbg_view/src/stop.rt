//! Why the rest of a list of moves isn't shown.
ghost use Rattle.std.specs.Prelude.{◌≡◌};
ghost use Rattle.rbg_view.specs.declared.stop.Stop.TheVariants.{Memory};
ghost use Rattle.rbg_view.specs.internal.Stopping.{IsNoMove, stop_of_unsettled};

use rbg_base::Memory as OutOfMemory;
use rbg_moves::Unsettled;

/// Why the rest of a list of moves isn't shown.
#[derive(Clone, Copy)]
pub(crate) enum Stop {
    /// The move isn't legal.
    NotLegal,
    /// The line is no move.
    NoMove,
    /// The line is no move, since a byte order mark stands before it.
    Mark,
    /// The line stands after the last line of a record.
    AfterEnd,
    /// A question is above the limits.
    Heavy,
    /// The keeper is to move after 1,000 of its moves in a row.
    Keeper,
    Memory,
}

/// The bytes with which some programs begin a text of UTF-8.
const BYTE_ORDER_MARK: &[u8] = b"\xEF\xBB\xBF";

impl Stop {
    /// What is said of a line that is no move.
    pub(crate) fn of_no_move(line: &[u8]) -> Stop
        ensures { IsNoMove line.now result }
    {
        if line.starts_with(BYTE_ORDER_MARK) {
            Stop::Mark
        } else {
            Stop::NoMove
        }
    }
}

impl From<Unsettled> for Stop {
    ghost from_gives = { λ unsettled stop. stop ≡ stop_of_unsettled unsettled };

    fn from(unsettled: Unsettled) -> Stop {
        match unsettled {
            Unsettled::Heavy => Stop::Heavy,
            Unsettled::Endless => Stop::Keeper,
            Unsettled::Memory => Stop::Memory,
        }
    }
}

impl From<OutOfMemory> for Stop {
    ghost from_gives = { λ _ stop. stop ≡ Memory };

    fn from(_error: OutOfMemory) -> Stop {
        Stop::Memory
    }
}
