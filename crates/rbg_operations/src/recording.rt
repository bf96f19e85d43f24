//! Refereeing a match with its record.
ghost use Rattle.std.specs.Prelude.{IfOk, IfErr, List, ℕ};
ghost use Rattle.rbg_match.specs.Matches.{HasHistory};
ghost use Rattle.rbg_operations.specs.Recorded.{IsRecorded, IsWrittenOf};
ghost use Rattle.rbg_referee.specs.Matches.{IsNoMatch};
ghost use Rattle.rbg_script.specs.Scripts.{SpellsScript, script_of as abstract_script};

use rbg_match::{Match, Outbox};
use rbg_record::write_record;
use rbg_referee::{RefereeingError, match_lines, play_script, referee_texts};
use rbg_script::{Script, read_script};
use std::alloc::{AllocError, Global};

/// What is printed of a match, and its record of version 2.
#[derive(Drop)]
pub struct Recorded {
    pub lines: Vec<u8>,
    pub told: Vec<u8>,
}

/// Referees the match of a description and a script, as `referee_texts` does, and writes its record too.
pub fn referee_recorded(
    alloc: Global,
    description: &[u8],
    script: &[u8],
) -> Result<Recorded, RefereeingError>
    ensures recorded { IfOk result (λ both.
        IsRecorded description.now script.now both.lines.items both.told.items) }
    ensures refused { IfErr result (IsNoMatch description.now script.now) }
{
    match read_script(alloc, script) {
        Ok(read) => record_script(alloc, description, &read),
        Err(_) => refuse(alloc, description, script),
    }
}

/// Why a text that is no script has no match.
fn refuse(alloc: Global, description: &[u8], script: &[u8]) -> Result<Recorded, RefereeingError>
    ensures never { IfOk result (λ _. ⊥) }
    ensures refused { IfErr result (IsNoMatch description.now script.now) }
{
    match referee_texts(alloc, description, script) {
        Ok(_) => Err(RefereeingError::Memory),
        Err(error) => Err(error),
    }
}

/// Referees the match of a script that was read, and writes its record.
fn record_script(
    alloc: Global,
    description: &[u8],
    script: &Script,
) -> Result<Recorded, RefereeingError>
    ensures recorded { IfOk result (λ both. (text : List ℕ) →
        SpellsScript text (abstract_script script.now) →
        IsRecorded description.now text both.lines.items both.told.items) }
    ensures refused { IfErr result (λ fault. (text : List ℕ) →
        SpellsScript text (abstract_script script.now) → IsNoMatch description.now text fault) }
{
    let (played, outbox) = play_script(alloc, description, script)?;
    match write_both(alloc, &played, &outbox) {
        Ok(both) => Ok(both),
        Err(_) => Err(RefereeingError::Memory),
    }
}

/// The lines of a match, and its record.
fn write_both(alloc: Global, played: &Match, outbox: &Outbox) -> Result<Recorded, AllocError>
    ensures { IfOk result (λ both. HasHistory played.now →
        IsWrittenOf played.now outbox.now both.lines.items both.told.items) }
{
    let lines = match_lines(alloc, outbox)?;
    let told = write_record(alloc, played)?;
    Ok(Recorded { lines, told })
}
