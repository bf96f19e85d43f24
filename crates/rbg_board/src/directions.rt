//! Lists of directions: whether two are equal, and how wide a table they need.
ghost use Rattle.std.specs.Prelude.{◌≡◌, ◌+◌, ◌<◌, ◌≤◌, ◌^◌, All, MatchBool};
ghost use Rattle.rbg_board.specs.Cells.{HasTwice, AreDifferent, width_of};

use rbg_base::Direction;

/// Whether two of the directions are equal.
#[tactic(auto, unfolding(crate::specs::Cells::AreDifferent))]
pub(crate) fn has_twice(directions: &[Direction]) -> bool
    ensures { MatchBool result (HasTwice directions.now) (AreDifferent directions.now) }
{
    for (i, direction) in directions.iter().enumerate() {
        if directions[..i].contains(direction) {
            return true;
        }
    }
    false
}

/// The number of entries that each vertex needs in a table of these directions.
pub(crate) fn table_width(directions: &[Direction]) -> usize
    ensures width { result ≡ width_of directions.now }
    ensures limit { result ≤ 2 ^ 16 }
    ensures covers { All (λ d. d < result) directions.now }
{
    let mut width = 0usize;
    for direction in directions {
        width = width.max(*direction as usize + 1);
    }
    width
}
