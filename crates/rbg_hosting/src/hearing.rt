//! A hall that hears a script, from the bytes of its descriptions and of the script to the printed lines.
ghost use Rattle.std.specs.Prelude.{ℕ, List, IfErr, IfOk};
ghost use Rattle.rbg_hosting.specs.Halls.{IsHeardHall, IsNoHall, IsPrintedScript, IsScriptsHall, MayBeDescriptions};
ghost use Rattle.rbg_hosting.specs.Tables.{texts_of};
ghost use Rattle.rbg_script.specs.Scripts.{IsReason, SpellsScript, script_of as abstract_script};

use crate::HostingError;
use crate::printed::hall_lines;
use crate::tables::tables_of;
use rbg_hall::{HallOut, TABLES, whole_hall};
use rbg_match::Config;
use rbg_referee::{RefereeingError, config_of};
use rbg_script::{Script, ScriptError, lend_events, read_script};
use std::alloc::Global;

/// Hears a script in a hall with a table for each description. Returns the lines that are printed of it: for each of the
/// hall's lines its messages. Where the script has the number of a seat, this is the number of a line. A refusal of a
/// description comes before a fault of the script.
pub fn hall_texts(
    alloc: Global,
    descriptions: &[Vec<u8>],
    script: &[u8],
) -> Result<Vec<u8>, HostingError>
    ensures heard { IfOk result (λ lines.
        IsScriptsHall (texts_of descriptions.now) script.now lines.items) }
    ensures refused { IfErr result (IsNoHall (texts_of descriptions.now) script.now) }
{
    if descriptions.is_empty() {
        return Err(HostingError::Tables);
    }
    if descriptions.len() > TABLES {
        return Err(HostingError::Tables);
    }
    match read_script(alloc, script) {
        Ok(script) => hear_script(alloc, descriptions, &script),
        Err(error) => refuse_script(alloc, descriptions, error),
    }
}

/// The fault of a text that is no script for this reason, if each description is a game's.
fn refuse_script(
    alloc: Global,
    descriptions: &[Vec<u8>],
    error: ScriptError,
) -> Result<Vec<u8>, HostingError>
    ensures refused { IfErr result (λ fault. (text : List ℕ) → IsReason text error →
        IsNoHall (texts_of descriptions.now) text fault) }
    ensures never { IfOk result (λ _. ⊥) }
{
    let config = Config {
        turn_ms: 1,
        refusals: 0,
    };
    tables_of(alloc, descriptions, config)?;
    Err(HostingError::Input(RefereeingError::from(error)))
}

/// Hears a script that was read.
fn hear_script(
    alloc: Global,
    descriptions: &[Vec<u8>],
    script: &Script,
) -> Result<Vec<u8>, HostingError>
    requires { MayBeDescriptions (texts_of descriptions.now) }
    ensures heard { IfOk result (λ lines.
        IsPrintedScript (texts_of descriptions.now) (abstract_script script.now) lines.items) }
    ensures refused { IfErr result (λ fault. (text : List ℕ) →
        SpellsScript text (abstract_script script.now) →
        IsNoHall (texts_of descriptions.now) text fault) }
{
    let out = queues_of(alloc, descriptions, script)?;
    match hall_lines(alloc, &out) {
        Ok(lines) => Ok(lines),
        Err(_) => Err(HostingError::Input(RefereeingError::Memory)),
    }
}

/// What is queued for the lines of the hall.
fn queues_of(
    alloc: Global,
    descriptions: &[Vec<u8>],
    script: &Script,
) -> Result<HallOut, HostingError>
    requires { MayBeDescriptions (texts_of descriptions.now) }
    ensures heard { IfOk result (λ out.
        IsHeardHall (texts_of descriptions.now) (abstract_script script.now) out) }
    ensures refused { IfErr result (λ fault. (text : List ℕ) →
        SpellsScript text (abstract_script script.now) →
        IsNoHall (texts_of descriptions.now) text fault) }
{
    let tables = tables_of(alloc, descriptions, config_of(script.config))?;
    let events = match lend_events(alloc, script.events.as_slice()) {
        Ok(events) => events,
        Err(_) => return Err(HostingError::Input(RefereeingError::Memory)),
    };
    match whole_hall(alloc, tables, events.as_slice()) {
        Ok(out) => Ok(out),
        Err(error) => Err(HostingError::from(error)),
    }
}
