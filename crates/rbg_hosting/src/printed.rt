//! The printed lines of a hall: for each of its lines in order, each of its messages.
ghost use Rattle.std.specs.Prelude.{◌≡◌, length, IfOk};
ghost use Rattle.rbg_hall.specs.TableLimits.{lines_in_all};
ghost use Rattle.rbg_hosting.specs.Printed.{IsPrintedHall};

use rbg_hall::{HallOut, LINES};
use rbg_referee::push_seat;
use std::alloc::{AllocError, Global};

/// `<line> <message>` for each message, as `referee` prints those of a seat.
pub(crate) fn hall_lines(alloc: Global, out: &HallOut) -> Result<Vec<u8>, AllocError>
    requires { length out.now ≡ lines_in_all }
    ensures { IfOk result (λ lines. IsPrintedHall out.now lines.items) }
{
    let mut lines = Vec::new(alloc);
    for line in 0..LINES {
        push_seat(alloc, line, out.bytes(line as u64), &mut lines)?;
    }
    Ok(lines)
}
