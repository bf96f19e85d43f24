//! The parts of a new hall.
ghost use Rattle.std.specs.Prelude.{◌≡◌, IfNone, IfOk, IfSome};
ghost use Rattle.rbg_game.specs.Loading.{Loads};
ghost use Rattle.rbg_match.specs.Config.{IsWithinLimits};
ghost use Rattle.rbg_hall.specs.Openings.{AreLoaded};
ghost use Rattle.rbg_hall.specs.internal.Parts.{AreNew, HaveLimits, IsFaulty, new_kept, new_tables};

use crate::Table;
use crate::hall_table::HallTable;
use crate::kept_table::KeptTable;
use crate::line::LinePhase;
use crate::queues::LINES;
use rbg_base::Memory;
use rbg_match::MESSAGE_LIMIT;
use rbg_serving::Log;
use rbg_wire::Inbox;
use std::alloc::Global;

/// The index of a table whose config is outside its limits, if there is one.
pub(crate) fn faulty(tables: &[Table]) -> Option<usize>
    ensures found { IfSome result (IsFaulty tables.now) }
    ensures none { IfNone result (HaveLimits tables.now) }
{
    for (index, table) in tables.iter().enumerate() {
        if !table.config.is_within_limits() {
            return Some(index);
        }
    }
    None
}

/// The tables, where nobody sits, with no logs.
pub(crate) fn open_tables<W: Log>(
    alloc: Global,
    mut tables: Vec<Table>,
) -> Result<Vec<KeptTable<W>>, Memory>
    requires loaded { AreLoaded tables.items }
    requires limits { HaveLimits tables.items }
    ensures { IfOk result (λ opened. opened.items ≡ new_tables tables.items) }
{
    let mut opened = Vec::with_capacity(alloc, tables.len())?;
    // From the last table to the first.
    while let Some(table) = tables.pop() {
        opened.push(open_table(alloc, table)?)?;
    }
    opened.reverse();
    Ok(opened)
}

/// A table, where nobody sits, with no log.
fn open_table<W: Log>(alloc: Global, table: Table) -> Result<KeptTable<W>, Memory>
    requires loaded { Loads table.text.items table.game }
    requires limits { IsWithinLimits table.config }
    ensures { IfOk result (λ opened. opened ≡ new_kept table) }
{
    let opened = HallTable::new(alloc, table.game, table.text, table.config)?;
    Ok(KeptTable::new(alloc, opened))
}

/// The lines, of which nothing was heard.
pub(crate) fn new_lines(alloc: Global) -> Result<Vec<LinePhase>, Memory>
    ensures { IfOk result (λ lines. AreNew LINES lines.items) }
{
    let mut lines = Vec::with_capacity(alloc, LINES)?;
    for _ in 0..LINES {
        lines.push(LinePhase::Silent(Inbox::new(alloc, MESSAGE_LIMIT)))?;
    }
    Ok(lines)
}
