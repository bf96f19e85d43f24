//! Which lines may still speak.
ghost use Rattle.std.specs.Prelude.{◌↔◌, length, IsTrue};
ghost use Rattle.rbg_hall.specs.Serving.{MaySpeak, SpeaksAs};
ghost use Rattle.rbg_hall.specs.internal.Parts.{AreReady, IsReady, hall_of, line_of, states_of};

use crate::kept_table::KeptTable;
use crate::line::LinePhase;
use rbg_serving::Log;

/// Whether something may still be heard of a line.
pub(crate) fn may_speak<W: Log>(tables: &[KeptTable<W>], lines: &[LinePhase], line: usize) -> bool
    requires { AreReady (length tables.now) lines.now }
    ensures { IsTrue result ↔ MaySpeak (hall_of tables.now lines.now) line }
{
    if line >= lines.len() {
        return false;
    }
    speaks(tables, &lines[line], line as u64)
}

/// Whether something may still be heard of a line that stands so.
fn speaks<W: Log>(tables: &[KeptTable<W>], one: &LinePhase, line: u64) -> bool
    requires { IsReady (length tables.now) one.now }
    ensures { IsTrue result ↔ SpeaksAs (states_of tables.now) line (line_of one.now) }
{
    match one {
        LinePhase::Silent(_) => true,
        LinePhase::Asks { index, .. } => tables[*index].has_seat(line),
        LinePhase::Over => false,
    }
}
