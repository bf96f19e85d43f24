//! The events of a script, lent to a match or a hall.
ghost use Rattle.std.specs.Prelude.{◌≡◌, map, IfOk};
ghost use Rattle.rbg_script.specs.Events.{event_of, owned_event_of};

use crate::Event;
use std::alloc::{AllocError, Global};

/// The same events, in order. They borrow the pieces' bytes.
pub fn lend_events(
    alloc: Global,
    events: &[Event<Vec<u8>>],
) -> Result<Vec<Event<&[u8]>>, AllocError>
    ensures { IfOk result (λ lent. map event_of lent.items ≡ map owned_event_of events.now) }
{
    let mut lent = Vec::with_capacity(alloc, events.len())?;
    for event in events {
        lent.push(event.lend())?;
    }
    Ok(lent)
}
