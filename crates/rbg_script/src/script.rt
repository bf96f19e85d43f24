//! Scripts, and the call that reads one.
ghost use Rattle.std.specs.Prelude.{◌≡◌, IfOk, IfErr, MatchResult, map};
ghost use Rattle.rbg_script.specs.declared.error.ScriptError.TheVariants.{Memory as OutOfMemory};
ghost use Rattle.rbg_script.specs.Events.{owned_event_of};
ghost use Rattle.rbg_script.specs.Scripts.{AbstractScript, SpellsScript, script_of, IsReason};
ghost use Rattle.rbg_script.specs.internal.Reading.{BeginsWith, SpellsEvents, IsEventReason, TakesLine};

use crate::config_reader::read_config;
use crate::event_reader::read_event;
use crate::{Event, ScriptConfig, ScriptError};
use rbg_base::Memory;
use rbg_wire::cut_at;
use std::alloc::Global;

/// A script: the config, and the events in order.
#[derive(Drop)]
pub struct Script {
    pub config: ScriptConfig,
    pub events: Vec<Event<Vec<u8>>>,
}

/// The script that the whole text spells.
///
/// Returns `Line` if the text spells no script.
pub fn read_script(alloc: Global, text: &[u8]) -> Result<Script, ScriptError>
    // A script that is returned is one that the text spells.
    ensures found { IfOk result (λ script. SpellsScript text.now (script_of script)) }
    // If the text spells a script, that script is returned, unless memory runs out.
    ensures only { (script : AbstractScript)
        → SpellsScript text.now script
        → MatchResult result (λ found. script_of found ≡ script) (λ error. error ≡ OutOfMemory) }
    // The line of the error is the first that is missing or not of its form.
    ensures line { IfErr result (IsReason text.now) }
{
    script_in(alloc, text)
}

fn script_in(alloc: Global, text: &[u8]) -> Result<Script, ScriptError>
    ensures found { IfOk result (λ script. SpellsScript text.now (script_of script)) }
    ensures line { IfErr result (IsReason text.now) }
{
    let (first, rest) = first_line(text);
    let Some(config) = read_config(first) else {
        return Err(ScriptError::Line(1));
    };
    let events = read_events(alloc, rest)?;
    Ok(Script { config, events })
}

// The events that the lines spell.
fn read_events(alloc: Global, text: &[u8]) -> Result<Vec<Event<Vec<u8>>>, ScriptError>
    ensures found { IfOk result (λ events. SpellsEvents text.now (map owned_event_of events.items)) }
    ensures line { IfErr result (IsEventReason text.now) }
{
    let mut events = Vec::new(alloc);
    let mut left = text;
    while !left.is_empty() {
        let (line, rest) = first_line(left);
        if !take_line(alloc, line, &mut events)? {
            return Err(ScriptError::Line(events.len() + 2));
        }
        left = rest;
    }
    Ok(events)
}

// Adds the event that a line spells. Returns false if the line spells none.
fn take_line(alloc: Global, line: &[u8], events: &mut Vec<Event<Vec<u8>>>) -> Result<bool, Memory>
    ensures { IfOk result (TakesLine line.now
        (map owned_event_of events.old.items) (map owned_event_of events.new.items)) }
{
    let Some(event) = read_event(alloc, line)? else {
        return Ok(false);
    };
    events.push(event)?;
    Ok(true)
}

// The first line of a text, and what is after it.
fn first_line(text: &[u8]) -> (&[u8], &[u8])
    ensures { BeginsWith text.now result.0.now result.1.now }
{
    match cut_at(b'\n', text) {
        Some(parts) => parts,
        None => (text, &[]),
    }
}
