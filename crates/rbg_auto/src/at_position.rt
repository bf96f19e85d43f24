//! Looking up what a list has at a position.
ghost use Rattle.std.specs.Prelude.{◌≡◌, slice_index_or};

use rbg_base::Position;

/// What a list has at a position, or `none` if it ends before.
#[inline(always)]
pub fn at_or<T: Copy>(items: &[T], position: Position, none: T) -> T
    ensures { result ≡ slice_index_or items.now position none }
{
    let index = position as usize;
    if index < items.len() {
        items[index]
    } else {
        none
    }
}
