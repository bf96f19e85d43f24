//! When the time of the first mover in a hall is over.
ghost use Rattle.std.specs.Prelude.{◌≡◌, MatchOption};
ghost use Rattle.rbg_hall.specs.Due.{IsDueOf, IsFirstDue};
ghost use Rattle.rbg_hall.specs.internal.Due.{IsDueOrNone, IsEarlierOf};
ghost use Rattle.rbg_hall.specs.internal.Parts.{states_of};

use crate::kept_table::KeptTable;
use rbg_serving::Log;

/// The first of the moments at which a mover's time is over, if a match goes on.
pub(crate) fn first_due<W: Log>(tables: &[KeptTable<W>]) -> Option<u64>
    ensures { IsFirstDue (states_of tables.now) result }
{
    let mut first = None;
    for table in tables {
        first = earlier(first, due_of(table));
    }
    first
}

/// The moment at which the time of a table's mover is over, if its match goes on.
fn due_of<W: Log>(table: &KeptTable<W>) -> Option<u64>
    ensures { IsDueOrNone table.now.table result }
{
    match table.begun() {
        Some(playing) => playing.due(),
        None => None,
    }
}

/// The earlier of two moments, where there are two.
fn earlier(one: Option<u64>, other: Option<u64>) -> Option<u64>
    ensures { IsEarlierOf one other result }
{
    match (one, other) {
        (Some(one), Some(other)) => Some(one.min(other)),
        (Some(one), None) => Some(one),
        (None, other) => other,
    }
}
