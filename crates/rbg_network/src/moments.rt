//! The moments of a clock that stands while the referee works. Its mark counts the microseconds that were waited.
ghost use Rattle.std.specs.Prelude.{◌≡◌};
ghost use Rattle.rbg_network.specs.Moments.{GoesOn, IsMoment, over_at};

/// The microseconds of a moment's unit.
const MILLISECOND: u64 = 1_000;

/// The mark at which a due moment is over. A turn begins at a whole millisecond, which may be earlier by almost one than
/// what brought it; so the millisecond of the due moment is the player's.
pub(crate) fn over_at(due: u64) -> u128
    ensures { result ≡ over_at due }
{
    u128::from(due) * 1_000 + 1_000
}

/// The mark at the end of a wait that began at the mark `before`, lasted so long, and was asked to last until `end`. What it
/// lasted longer is charged to nobody, as when the process was stopped.
pub(crate) fn mark_after(before: u64, lasted: u64, end: u64) -> u64
    ensures { GoesOn before lasted end result }
{
    let room = end.saturating_sub(before);
    before + lasted.min(room)
}

/// The moment at a mark. Where the time of a mover is over at the moment `due`, whoever spoke in a wait that began before
/// that moment was over spoke in time, also if the wait ended later.
pub(crate) fn moment_at(due: u64, before: u64, after: u64, spoke: bool) -> u64
    ensures { IsMoment due before after spoke result }
{
    let moment = after / MILLISECOND;
    let over = over_at(due);
    if u128::from(after) < over || (spoke && u128::from(before) < over) {
        return moment.min(due.saturating_sub(1));
    }
    moment
}
