//! Points of a drawing and the ways between them, in whole numbers: a square is 1000 wide.

use rbg_wire::write_number;
use std::alloc::AllocError;

/// A point of a drawing: to the right and down.
#[derive(Clone, Copy)]
pub(crate) struct Point {
    pub x: i64,
    pub y: i64,
}

/// A way of a length of 1000: to the right and down.
#[derive(Clone, Copy)]
pub(crate) struct Way {
    pub right: i64,
    pub down: i64,
}

impl Way {
    /// The way to the left of this one.
    pub(crate) fn turned(self) -> Way {
        Way {
            right: self.down,
            down: 0i64.saturating_sub(self.right),
        }
    }
}

impl Point {
    /// The point that is so far to the right and down from this one.
    pub(crate) fn moved(self, right: i64, down: i64) -> Point {
        Point {
            x: self.x.saturating_add(right),
            y: self.y.saturating_add(down),
        }
    }

    /// The point at this distance from this one along a way.
    pub(crate) fn along(self, way: Way, distance: i64) -> Point {
        self.moved(
            way.right.saturating_mul(distance) / 1000,
            way.down.saturating_mul(distance) / 1000,
        )
    }

    /// The way to another point, if that is apart.
    pub(crate) fn way_to(self, to: Point) -> Option<Way> {
        let right = to.x.saturating_sub(self.x);
        let down = to.y.saturating_sub(self.y);
        let length = length_of(right, down);
        if length > 0 {
            Some(Way {
                right: right.saturating_mul(1000) / length,
                down: down.saturating_mul(1000) / length,
            })
        } else {
            None
        }
    }
}

/// How long a way is that leads so far to the right and down.
pub(crate) fn length_of(right: i64, down: i64) -> i64 {
    let right = right.unsigned_abs();
    let down = down.unsigned_abs();
    let squares = right
        .saturating_mul(right)
        .saturating_add(down.saturating_mul(down));
    squares.isqrt() as i64
}

/// So many steps of this length.
pub(crate) fn steps(count: usize, step: i64) -> i64 {
    i64::try_from(count)
        .unwrap_or(i64::MAX)
        .saturating_mul(step)
}

/// Appends a text and then a length of the drawing, of which 100 are 1 in the picture.
pub(crate) fn push_length(head: &[u8], length: i64, out: &mut Vec<u8>) -> Result<(), AllocError> {
    out.extend_from_slice(head)?;
    if length < 0 {
        out.push(b'-')?;
    }
    let hundredths = length.unsigned_abs();
    write_number(hundredths / 100, out)?;
    let rest = hundredths % 100;
    if rest > 0 {
        out.push(b'.')?;
        write_number(rest / 10, out)?;
        write_number(rest % 10, out)?;
    }
    Ok(())
}

/// Appends a text, and the two numbers of a point with a space between them.
pub(crate) fn push_point(head: &[u8], point: Point, out: &mut Vec<u8>) -> Result<(), AllocError> {
    push_length(head, point.x, out)?;
    push_length(b" ", point.y, out)
}
