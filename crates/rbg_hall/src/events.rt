//! What a hall does at an event.
ghost use Rattle.std.specs.Prelude.{◌≡◌, length, option_copied, OnErr, OnOk};
ghost use Rattle.rbg_script.specs.Events.{event_of};
ghost use Rattle.rbg_hall.specs.internal.Hearing.{KeptStops, KeptWrites, said_by};
ghost use Rattle.rbg_hall.specs.internal.Parts.{AreReady};

use crate::hearing::{hear_end, hear_piece, tick};
use crate::kept_table::KeptTable;
use crate::line::{LinePhase, Speaker};
use crate::queues::Queues;
use rbg_script::Event;
use rbg_serving::{Log, WriteError};
use std::mem::replace;

/// Hears an event.
pub(crate) fn hear_event<W: Log>(
    tables: &mut [KeptTable<W>],
    lines: &mut [LinePhase],
    event: Event<&[u8]>,
    out: &mut Queues,
) -> Result<(), WriteError>
    requires { AreReady (length tables.old) lines.old }
    ensures writes { OnOk result (KeptWrites W.told tables.old lines.old (event_of event.entry)
        tables.new lines.new out.old.queued out.new.queued) }
    ensures stops { OnErr result (KeptStops W.told tables.old tables.new) }
    ensures ready { AreReady (length tables.new) lines.new }
    ensures count { length tables.new ≡ length tables.old }
    ensures committed { out.new.committed ≡ out.old.committed }
{
    match event {
        Event::Piece {
            source: line,
            at,
            bytes,
        } => { hear_line(tables, lines, Speaker { line, at }, Some(bytes), out) }
        Event::Ended { source: line, at } => {
            hear_line(tables, lines, Speaker { line, at }, None, out)
        }
        Event::Tick { at } => tick(tables, at, out),
    }
}

/// Hears a line that sends bytes, or that ends.
fn hear_line<W: Log>(
    tables: &mut [KeptTable<W>],
    lines: &mut [LinePhase],
    by: Speaker,
    bytes: Option<&[u8]>,
    out: &mut Queues,
) -> Result<(), WriteError>
    requires { AreReady (length tables.old) lines.old }
    ensures writes { OnOk result (KeptWrites W.told tables.old lines.old (said_by by.line by.at (option_copied bytes.entry))
        tables.new lines.new out.old.queued out.new.queued) }
    ensures stops { OnErr result (KeptStops W.told tables.old tables.new) }
    ensures ready { AreReady (length tables.new) lines.new }
    ensures count { length tables.new ≡ length tables.old }
    ensures committed { out.new.committed ≡ out.old.committed }
{
    let index = by.line as usize;
    if index >= lines.len() {
        return Ok(());
    }
    let one = replace(&mut lines[index], LinePhase::Over);
    match bytes {
        Some(bytes) => {
            let next = hear_piece(tables, one, by, bytes, out)?;
            lines[index] = next;
            Ok(())
        }
        None => hear_end(tables, one, by, out),
    }
}
