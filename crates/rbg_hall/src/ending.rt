//! Whether matches have ended, and whether a log has failed.
ghost use Rattle.std.specs.Prelude.{◌≡◌, ◌↔◌, IsTrue};
ghost use Rattle.rbg_hall.specs.Ledgers.{HasLogFailed};
ghost use Rattle.rbg_hall.specs.Serving.{HaveAllEnded, has_ended};
ghost use Rattle.rbg_hall.specs.internal.Parts.{ledgers_of, states_of};

use crate::kept_table::KeptTable;
use rbg_serving::Log;

/// Whether the match of a table has begun and ended.
fn has_ended<W: Log>(table: &KeptTable<W>) -> bool
    ensures { result ≡ has_ended table.now.table.begun }
{
    match table.begun() {
        Some(playing) => playing.outcome().is_some(),
        None => false,
    }
}

/// Whether the match of each table has begun and ended.
pub(crate) fn have_all_ended<W: Log>(tables: &[KeptTable<W>]) -> bool
    ensures { IsTrue result ↔ HaveAllEnded (states_of tables.now) }
{
    for table in tables {
        if !has_ended(table) {
            return false;
        }
    }
    true
}

/// Whether the log of a table failed.
pub(crate) fn has_log_failed<W: Log>(tables: &[KeptTable<W>]) -> bool
    ensures { IsTrue result ↔ HasLogFailed (ledgers_of tables.now) }
{
    for table in tables {
        if table.has_log_failed() {
            return true;
        }
    }
    false
}
