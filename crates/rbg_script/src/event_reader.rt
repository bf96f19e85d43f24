//! The calls that read an event.
ghost use Rattle.std.specs.Prelude.{◌≡◌, ℕ, ◌<◌, ◌^◌, List, [], ◌∷◌, ◌++◌, IfSome, IfNone, IfOk, codes};
ghost use Rattle.std.specs.Bool.{OnFalse};
ghost use Rattle.std.specs.Option.{IsSomeAnd};
ghost use Rattle.hex.specs.declared.error.FromHexError.TheVariants.{OutOfMemory};
ghost use Rattle.rbg_script.specs.Events.{
  AbstractEvent,
  HasFields,
  SpellsBytes,
  SpellsEvent,
  SpellsMessage,
  owned_event_of,
  piece,
  tick_text,
};
ghost use Rattle.rbg_script.specs.internal.Reading.{IsNoEnd};

use crate::fields::fields_in;
use crate::{Event, ScriptMessage};
use hex::FromHexError;
use rbg_base::{Memory, number_of_decimal};
use rbg_wire::{after_text, cut_number};
use std::alloc::Global;

/// The message of an `m` line that is the whole text. The call allocates nothing.
///
/// Returns None if the text is no `m` line.
pub fn read_message(line: &[u8]) -> Option<ScriptMessage<'_>>
    // A message that is returned is the one whose line the text is.
    ensures found { IfSome result (SpellsMessage line.now) }
    // If the text is the line of a message, that message is returned.
    ensures only { (seat at : ℕ) (said : List ℕ)
        → HasFields line.now (codes "m ") seat at said
        → IsSomeAnd result (λ message.
        (message.seat ≡ seat) × (message.at ≡ at) × (message.text.now ≡ said)) }
{
    message_in(line)
}

/// The event that the whole text spells.
///
/// Returns None if the text spells no event.
pub fn read_event(alloc: Global, line: &[u8]) -> Result<Option<Event<Vec<u8>>>, Memory>
    // An event that is returned is one that the text spells.
    ensures found { IfOk result (λ read.
        IfSome read (λ event. SpellsEvent line.now (owned_event_of event))) }
    // If the text spells an event, that event is returned.
    ensures only { (event : AbstractEvent)
        → SpellsEvent line.now event
        → IfOk result (λ read. IsSomeAnd read (λ found. owned_event_of found ≡ event)) }
{
    event_in(alloc, line)
}

fn event_in(alloc: Global, line: &[u8]) -> Result<Option<Event<Vec<u8>>>, Memory>
    ensures found { IfOk result (λ read.
        IfSome read (λ event. SpellsEvent line.now (owned_event_of event))) }
    ensures none { IfOk result (λ read.
        IfNone read ((event : AbstractEvent) → SpellsEvent line.now event → ⊥)) }
{
    if let Some(message) = message_in(line) {
        return Ok(Some(piece_of(alloc, &message)?));
    }
    let piece = piece_in(alloc, line)?;
    if piece.is_some() {
        return Ok(piece);
    }
    Ok(instant_in(line))
}

fn message_in(line: &[u8]) -> Option<ScriptMessage<'_>>
    ensures found { IfSome result (SpellsMessage line.now) }
    ensures none { IfNone result ((seat at : ℕ) (said : List ℕ)
        → HasFields line.now (codes "m ") seat at said
        → ⊥) }
{
    let fields = fields_in(b"m ", line)?;
    Some(ScriptMessage {
        seat: fields.seat,
        at: fields.at,
        text: fields.rest,
    })
}

// The piece that a message makes: its text and a zero byte.
fn piece_of(alloc: Global, message: &ScriptMessage<'_>) -> Result<Event<Vec<u8>>, Memory>
    ensures { IfOk result (λ event.
        owned_event_of event
        ≡ piece message.now.seat message.now.at (message.now.text.now ++ 0 ∷ [])) }
{
    let mut bytes = Vec::with_capacity(alloc, message.text.len().saturating_add(1))?;
    bytes.extend_from_slice(message.text)?;
    bytes.push(0)?;
    Ok(Event::Piece {
        source: message.seat,
        at: message.at,
        bytes,
    })
}

// The piece of a `p` line.
fn piece_in(alloc: Global, line: &[u8]) -> Result<Option<Event<Vec<u8>>>, Memory>
    ensures found { IfOk result (λ read.
        IfSome read (λ event. SpellsEvent line.now (owned_event_of event))) }
    ensures none { IfOk result (λ read. IfNone read ((seat at : ℕ) (digits bytes : List ℕ)
        → HasFields line.now (codes "p ") seat at digits
        → SpellsBytes digits bytes
        → ⊥)) }
{
    let Some(fields) = fields_in(b"p ", line) else {
        return Ok(None);
    };
    let Some(bytes) = bytes_of(alloc, fields.rest)? else {
        return Ok(None);
    };
    Ok(Some(Event::Piece {
        source: fields.seat,
        at: fields.at,
        bytes,
    }))
}

// The bytes that hexadecimal digits spell.
fn bytes_of(alloc: Global, digits: &[u8]) -> Result<Option<Vec<u8>>, Memory>
    ensures found { IfOk result (λ read.
        IfSome read (λ bytes. SpellsBytes digits.now bytes.items)) }
    ensures none { IfOk result (λ read.
        IfNone read ((bytes : List ℕ) → SpellsBytes digits.now bytes → ⊥)) }
{
    match hex::decode(alloc, digits) {
        Ok(bytes) => Ok(Some(bytes)),
        Err(error) => {
            if is_memory(error) {
                Err(Memory)
            } else {
                Ok(None)
            }
        }
    }
}

fn is_memory(error: FromHexError) -> bool
    ensures { OnFalse result (error ≡ OutOfMemory → ⊥) }
{
    matches!(error, FromHexError::OutOfMemory)
}

// The event of a line that has no bytes.
fn instant_in(line: &[u8]) -> Option<Event<Vec<u8>>>
    ensures found { IfSome result (λ event. SpellsEvent line.now (owned_event_of event)) }
    ensures ended { IfNone result (IsNoEnd line.now) }
    ensures ticked { IfNone result ((at : ℕ) → at < 2 ^ 64 → line.now ≡ tick_text at → ⊥) }
{
    match end_in(line) {
        Some(event) => Some(event),
        None => tick_in(line),
    }
}

fn end_in(line: &[u8]) -> Option<Event<Vec<u8>>>
    ensures found { IfSome result (λ event. SpellsEvent line.now (owned_event_of event)) }
    ensures none { IfNone result (IsNoEnd line.now) }
{
    let fields = after_text(b"e ", line)?;
    let (seat, at) = cut_number(fields)?;
    let at = number_of_decimal(at)?;
    Some(Event::Ended { source: seat, at })
}

fn tick_in(line: &[u8]) -> Option<Event<Vec<u8>>>
    ensures found { IfSome result (λ event. SpellsEvent line.now (owned_event_of event)) }
    ensures none { IfNone result ((at : ℕ) → at < 2 ^ 64 → line.now ≡ tick_text at → ⊥) }
{
    let at = after_text(b"t ", line)?;
    let at = number_of_decimal(at)?;
    Some(Event::Tick { at })
}
