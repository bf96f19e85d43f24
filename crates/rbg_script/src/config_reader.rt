//! The call that reads the first line of a script. It allocates nothing.
ghost use Rattle.std.specs.Prelude.{◌↔◌, IsTrue};
ghost use Rattle.rbg_wire.specs.Reads.{ReadsOnly};
ghost use Rattle.rbg_script.specs.Config.{AreWithinLimits, SpellsConfig};

use crate::ScriptConfig;
use crate::config::{MAX_REFUSALS, MAX_TURN_MS};
use rbg_base::number_of_decimal;
use rbg_wire::{after_text, cut_number};

/// The config that the whole text spells: `config <turn> <refusals> <now>`.
///
/// Returns None if the text spells no config. A number above its limit spells none.
pub fn read_config(line: &[u8]) -> Option<ScriptConfig>
    ensures { ReadsOnly (SpellsConfig line.now) result }
{
    let fields = after_text(b"config ", line)?;
    let (turn_ms, fields) = cut_number(fields)?;
    let (refusals, now) = cut_number(fields)?;
    let now = number_of_decimal(now)?;
    if are_within_limits(turn_ms, refusals) {
        Some(ScriptConfig {
            turn_ms,
            refusals: refusals as u32,
            now,
        })
    } else {
        None
    }
}

fn are_within_limits(turn_ms: u64, refusals: u64) -> bool
    ensures { IsTrue result ↔ AreWithinLimits turn_ms refusals }
{
    1 <= turn_ms && turn_ms <= MAX_TURN_MS && refusals <= MAX_REFUSALS
}
