//! Making a script of a record, line by line.
ghost use Rattle.std.specs.Prelude.{◌≡◌, ◌++◌, ℕ, List, IfErr, IfOk, OnOk, Err};
ghost use Rattle.rbg_record.specs.Heading.{version_text};
ghost use Rattle.rbg_record.specs.Reading.{HasContent};
ghost use Rattle.rbg_script.specs.Config.{config_text};
ghost use Rattle.rbg_wire.specs.Lines.{line_of};
ghost use Rattle.rbg_record.specs.Scripting.{IsNoRecord, IsScriptOfRecord, config_at};
ghost use Rattle.rbg_record.specs.internal.Telling.{IsRefusal, RefusesLine, WritesNext};

use crate::ScriptingError;
use crate::entries::write_entry;
use crate::heading::{Start, Version};
use crate::line::{Content, RecordLine};
use crate::moments::has_lawful_turns;
use crate::next::Next;
use crate::reader::RecordReader;
use rbg_base::Memory;
use rbg_script::{ScriptConfig, write_config};
use std::alloc::Global;

/// Makes a script of a record of either version: its config, and the events that lead to the record's moves and its
/// end. A record of version 1 has no moments. In its script a turn lasts for one millisecond, the match begins at
/// moment 0, and everything happens at moment 0, except that a time that is over ends at moment 1.
///
/// No refusal is allowed: a right record needs none, and a match that ended by refusals ends at the first one.
///
/// Only the form is checked, so a record that isn't right has a script too.
pub fn script_of_record(alloc: Global, bytes: &[u8]) -> Result<Vec<u8>, ScriptingError>
    ensures made { IfOk result (λ script. IsScriptOfRecord bytes.now script.items) }
    ensures form { (line : ℕ) → result ≡ Err (ScriptingError.Form line) → IsNoRecord bytes.now line }
{
    write_lines(alloc, bytes)
}

fn write_lines(alloc: Global, bytes: &[u8]) -> Result<Vec<u8>, ScriptingError>
    ensures made { IfOk result (λ script. IsScriptOfRecord bytes.now script.items) }
    ensures refused { IfErr result (IsRefusal bytes.now) }
{
    let mut out = Vec::new(alloc);
    let mut reader = RecordReader::new(bytes);
    let mut next = Next::Version;
    while let Some(line) = reader.read(next)? {
        next = write_line(alloc, next, &line, &mut out)?;
    }
    Ok(out)
}

/// Appends to the script what a line of the record means, and returns what comes next.
fn write_line(
    alloc: Global,
    next: Next,
    line: &RecordLine<'_>,
    out: &mut Vec<u8>,
) -> Result<Next, ScriptingError>
    requires { HasContent next line.now.text.now line.now.content }
    ensures leads { IfOk result (λ to.
        WritesNext next line.now.text.now to out.old.items out.new.items) }
    ensures refused { IfErr result (RefusesLine next line.now) }
{
    match &line.content {
        Content::Version(version) => Ok(begin(*version, out)?),
        Content::Players(_) => Ok(Next::Start),
        Content::Start(start) => {
            if !has_lawful_turns(*start) {
                return Err(ScriptingError::Form(line.number));
            }
            write_start(*start, out)?;
            Ok(Next::Entry(Version::Two))
        }
        Content::Entry(told) => {
            write_entry(alloc, told, out)?;
            Ok(next.after(&told.entry))
        }
    }
}

/// Appends the config of version 1. That of version 2 comes with the start.
fn begin(version: Version, out: &mut Vec<u8>) -> Result<Next, Memory>
    ensures { IfOk result (λ to. (text : List ℕ) → text ≡ version_text version
        → WritesNext Next.Version text to out.old.items out.new.items) }
{
    match version {
        Version::One => {
            write_start(Start { turn_ms: 1, now: 0 }, out)?;
            Ok(Next::Entry(Version::One))
        }
        Version::Two => Ok(Next::Players),
    }
}

/// Appends the config of a match with this start. No refusal is allowed.
fn write_start(start: Start, out: &mut Vec<u8>) -> Result<(), Memory>
    ensures { OnOk result (out.new.items ≡ out.old.items ++ line_of (config_text (config_at start.turn_ms start.now))) }
{
    let config = ScriptConfig {
        turn_ms: start.turn_ms,
        refusals: 0,
        now: start.now,
    };
    write_config(config, out)
}
