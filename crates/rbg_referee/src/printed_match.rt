//! The match of a description and a script, from their bytes to the printed lines.
ghost use Rattle.std.specs.Prelude.{◌≡◌, IfOk, IfErr, List, length, ℕ};
ghost use Rattle.rbg_game.specs.Loading.{Loads};
ghost use Rattle.rbg_match.specs.Matches.{HasHistory};
ghost use Rattle.rbg_match.specs.PlayingOn.{seats_of};
ghost use Rattle.rbg_referee.specs.Matches.{IsInputsMatch, IsNoInput, IsNoMatch, IsPrintedMatch, IsScriptPlayed, IsScriptRefereed, IsScriptsMatch};
ghost use Rattle.rbg_script.specs.Scripts.{IsReason, SpellsScript, script_of as abstract_script};

use crate::RefereeingError;
use crate::printed::match_lines;
use crate::refereeing::referee_match;
use crate::script_config::config_of;
use rbg_game::load;
use rbg_match::{Match, Outbox};
use rbg_script::{Script, ScriptError, cut_at_mark, lend_events, read_script};
use std::alloc::Global;

/// Referees the match of an input: a description, a line `%%` and a script. Returns the lines that are printed of it.
pub fn referee_input(alloc: Global, input: &[u8]) -> Result<Vec<u8>, RefereeingError>
    ensures played { IfOk result (λ lines. IsInputsMatch input.now lines.items) }
    ensures refused { IfErr result (IsNoInput input.now) }
{
    match cut_at_mark(input) {
        Some(texts) => referee_texts(alloc, texts.description, texts.script),
        None => Err(RefereeingError::Script(0)),
    }
}

/// Referees the match of a description and a script. Returns the lines that are printed of it. A refusal of the
/// description comes before a fault of the script.
pub fn referee_texts(
    alloc: Global,
    description: &[u8],
    script: &[u8],
) -> Result<Vec<u8>, RefereeingError>
    ensures played { IfOk result (λ lines. IsScriptsMatch description.now script.now lines.items) }
    ensures refused { IfErr result (IsNoMatch description.now script.now) }
{
    match read_script(alloc, script) {
        Ok(script) => referee_script(alloc, description, &script),
        Err(error) => refuse_script(alloc, description, error),
    }
}

/// The fault of a text that is no script for this reason. A refusal of the description comes first.
fn refuse_script(
    alloc: Global,
    description: &[u8],
    error: ScriptError,
) -> Result<Vec<u8>, RefereeingError>
    ensures refused { IfErr result (λ fault. (text : List ℕ) → IsReason text error → IsNoMatch description.now text fault) }
    ensures never { IfOk result (λ _. ⊥) }
{
    load(alloc, description)?;
    Err(RefereeingError::from(error))
}

/// Referees the match of a description and a script that was read.
fn referee_script(
    alloc: Global,
    description: &[u8],
    script: &Script,
) -> Result<Vec<u8>, RefereeingError>
    ensures played { IfOk result (λ lines.
        IsPrintedMatch description.now (abstract_script script.now) lines.items) }
    ensures refused { IfErr result (λ fault. (text : List ℕ) →
        SpellsScript text (abstract_script script.now) → IsNoMatch description.now text fault) }
{
    let outbox = outbox_of(alloc, description, script)?;
    match match_lines(alloc, &outbox) {
        Ok(lines) => Ok(lines),
        Err(_) => Err(RefereeingError::Memory),
    }
}

/// What the seats are sent in the match.
fn outbox_of(alloc: Global, description: &[u8], script: &Script) -> Result<Outbox, RefereeingError>
    ensures refereed { IfOk result (λ outbox.
        IsScriptRefereed description.now (abstract_script script.now) outbox) }
    ensures refused { IfErr result (λ fault. (text : List ℕ) →
        SpellsScript text (abstract_script script.now) → IsNoMatch description.now text fault) }
{
    let (_, outbox) = play_script(alloc, description, script)?;
    Ok(outbox)
}

/// The match of a description and a script, and what its seats are sent.
pub fn play_script(
    alloc: Global,
    description: &[u8],
    script: &Script,
) -> Result<(Match, Outbox), RefereeingError>
    ensures played { IfOk result (λ made.
        IsScriptPlayed description.now (abstract_script script.now) made.0 made.1) }
    ensures seats { IfOk result (λ made. length made.1 ≡ seats_of made.0.game) }
    ensures loads { IfOk result (λ made. Loads description.now made.0.game) }
    ensures history { IfOk result (λ made. HasHistory made.0) }
    ensures refused { IfErr result (λ fault. (text : List ℕ) →
        SpellsScript text (abstract_script script.now) → IsNoMatch description.now text fault) }
{
    let events = match lend_events(alloc, script.events.as_slice()) {
        Ok(events) => events,
        Err(_) => return Err(RefereeingError::Memory),
    };
    let config = config_of(script.config);
    let now = script.config.now;
    Ok(referee_match(alloc, description, config, now, events.as_slice())?)
}
