//! The table of a number: its match and its log. Tables are numbered from 1.
ghost use Rattle.std.specs.Prelude.{◌≡◌, ℕ, ◌+◌, ◌<◌, ◌≤◌, [], false, length, option_copied, option_map, IfNone, IfSome};
ghost use Rattle.rbg_match.specs.Matches.{HasHistory};
ghost use Rattle.rbg_hall.specs.Halls.{begun_at};
ghost use Rattle.rbg_hall.specs.Ledgers.{IsLogAt, given_to, log_at};
ghost use Rattle.rbg_hall.specs.internal.Parts.{IsPlaced, ledgers_of, states_of};

use crate::kept_table::KeptTable;
use rbg_match::Match;
use rbg_serving::Log;

/// The index of the table of a number, if there is one.
fn place_of(table: u64, tables: usize) -> Option<usize>
    ensures found { IfSome result (IsPlaced table tables) }
    ensures within { IfSome result (λ index. index < tables) }
    ensures none { IfNone result ((index : ℕ) → table ≡ index + 1 → tables ≤ index) }
{
    if table < 1 {
        return None;
    }
    if table > tables as u64 {
        return None;
    }
    Some(table as usize - 1)
}

/// The match of a table, once it has begun.
pub(crate) fn match_of<W: Log>(tables: &[KeptTable<W>], table: u64) -> Option<&Match>
    ensures is { option_map (λ playing. playing.now) result ≡ begun_at (states_of tables.now) table }
    ensures history { IfSome result (λ playing. playing.now.failed ≡ false → HasHistory playing.now) }
{
    match place_of(table, tables.len()) {
        Some(index) => tables[index].begun(),
        None => None,
    }
}

/// Gives the match of a table an empty log, unless it has begun or the table has failed.
pub(crate) fn keep_log<W: Log>(tables: &mut [KeptTable<W>], table: u64, log: W)
    requires { W.told log [] }
    ensures states { states_of tables.new ≡ states_of tables.old }
    ensures ledgers { ledgers_of tables.new ≡ given_to (states_of tables.old) (ledgers_of tables.old) table log }
    ensures count { length tables.new ≡ length tables.old }
{
    match place_of(table, tables.len()) {
        Some(index) => tables[index].keep(log),
        None => (),
    }
}

/// The log of a table's match, if there is one and the table has not failed.
pub(crate) fn log_of<W: Log>(tables: &[KeptTable<W>], table: u64) -> Option<&W>
    ensures is { option_copied result ≡ log_at (ledgers_of tables.now) table }
    ensures has { IfSome result (λ log. IsLogAt W.told log.now (states_of tables.now) table) }
{
    match place_of(table, tables.len()) {
        Some(index) => tables[index].log(),
        None => None,
    }
}
