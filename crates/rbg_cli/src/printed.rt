//! The printed line of how a match ended.
ghost use Rattle.std.specs.Prelude.{◌≡◌, IfOk};
ghost use Rattle.rbg_wire.specs.Lines.{line_of};
ghost use Rattle.rbg_wire.specs.Messages.{outcome_text};

use rbg_wire::{Outcome, write_outcome};
use std::alloc::{AllocError, Global};

/// The message that tells how a match ended, `E0 <scores>` to `E4`, with a line feed.
pub fn outcome_line(alloc: Global, outcome: &Outcome) -> Result<Vec<u8>, AllocError>
    ensures { IfOk result (λ line. line.items ≡ line_of (outcome_text outcome.now)) }
{
    let mut line = Vec::new(alloc);
    write_outcome(outcome, &mut line)?;
    line.push(b'\n')?;
    Ok(line)
}
