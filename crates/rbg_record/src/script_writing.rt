//! Writing a script.
ghost use Rattle.std.specs.Prelude.{◌≡◌, ◌++◌, All, map, OnOk};
ghost use Rattle.rbg_script.specs.Events.{EventHasSpelling, owned_event_of};
ghost use Rattle.rbg_script.specs.Scripts.{script_of, script_text};
ghost use Rattle.rbg_record.specs.Writing.{texts_of};

use rbg_base::Memory;
use rbg_script::{Event, Script, write_config, write_event};

/// Appends the lines of a script, whose events have spellings. On an error some lines may have been appended.
pub fn write_script(script: &Script, out: &mut Vec<u8>) -> Result<(), Memory>
    ensures written { OnOk result (out.new.items ≡ out.old.items ++ script_text (script_of script.now)) }
    ensures spelled { OnOk result (All EventHasSpelling (script_of script.now).events) }
{
    write_config(script.config, out)?;
    write_events(script.events.as_slice(), out)
}

/// Appends the lines of events.
fn write_events(events: &[Event<Vec<u8>>], out: &mut Vec<u8>) -> Result<(), Memory>
    ensures written { OnOk result (out.new.items ≡ out.old.items ++ texts_of events.now) }
    ensures spelled { OnOk result (All EventHasSpelling (map owned_event_of events.now)) }
{
    for event in events {
        write_event(event, out)?;
    }
    Ok(())
}
