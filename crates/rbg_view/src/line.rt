//! The lines of lists, scripts and records.
ghost use Rattle.std.specs.Prelude.{◌≡◌, ◌↔◌, ℕ, List, [], ◌∷◌, ◌++◌, IfOk, IfSome, IfNone, IsTrue, codes};
ghost use Rattle.rbg_script.specs.declared.config.ScriptConfig.{ScriptConfig as AnyConfig};
ghost use Rattle.rbg_script.specs.Config.{SpellsConfig};
ghost use Rattle.rbg_script.specs.Events.{owned_event_of};
ghost use Rattle.rbg_record.specs.declared.entry.Entry.TheVariants.{End as EndEntry};
ghost use Rattle.rbg_record.specs.declared.heading.Start.{Start as AnyStart};
ghost use Rattle.rbg_record.specs.Entries.{SpellsEntry, SpellsTimed};
ghost use Rattle.rbg_record.specs.Heading.{SpellsPlayers, SpellsStart};
ghost use Rattle.rbg_view.specs.declared.line.RecordEnd.{RecordEnd as AnyEnd};
ghost use Rattle.rbg_view.specs.declared.line.ListLine.TheVariants.{Silent};
ghost use Rattle.rbg_view.specs.Lines.{IsEnd, IsLine, IsPassedOver};
ghost use Rattle.rbg_view.specs.Following.{IsBare};
ghost use Rattle.rbg_view.specs.internal.Holding.{HoldsEvent};

use rbg_base::Memory;
use rbg_record::{Entry, Version, read_entry, read_players, read_start, read_timed, read_version};
use rbg_script::{Event, read_config, read_event, read_message};
use rbg_wire::{Outcome, after_text};
use std::alloc::Global;

/// How a record ends.
#[derive(Clone, Copy)]
pub(crate) struct RecordEnd {
    /// None where the match is still in play.
    pub outcome: Option<Outcome>,
}

/// What a line holds.
#[derive(Drop)]
pub(crate) enum ListLine<'a> {
    /// Nothing of moves: an empty line, a comment, the names or the start of a record, another event of a script.
    Silent,
    /// The first line of a record.
    Head { version: Version },
    /// The last line of a record.
    End { end: RecordEnd },
    /// A message of a seat, which may be no move, in an `m` line.
    Said { seat: u64, text: &'a [u8] },
    /// A message of a seat in a `p` line.
    Sent { seat: u64, text: Vec<u8> },
    /// Any other line: a move, or none.
    Other { text: &'a [u8] },
}

impl<'a> ListLine<'a> {
    /// Reads a line, without its line feed.
    pub(crate) fn read(alloc: Global, line: &'a [u8]) -> Result<ListLine<'a>, Memory>
        ensures { IfOk result (IsLine line.now) }
    {
        if let Some(message) = read_message(line) {
            return Ok(ListLine::Said {
                seat: message.seat,
                text: message.text,
            });
        }
        if let Some(event) = read_event(alloc, line)? {
            return Ok(ListLine::of_event(event));
        }
        if is_silent(line) {
            return Ok(ListLine::Silent);
        }
        if let Some(version) = read_version(line) {
            return Ok(ListLine::Head { version });
        }
        if let Some(end) = record_end(line) {
            return Ok(ListLine::End { end });
        }
        Ok(ListLine::Other { text: line })
    }

    /// What an event of a script holds.
    fn of_event(event: Event<Vec<u8>>) -> ListLine<'a>
        ensures { HoldsEvent (owned_event_of event) result }
    {
        let Event::Piece {
            source: seat,
            bytes,
            ..
        } = event
        else {
            return ListLine::Silent;
        };
        match without_zero(bytes) {
            Some(text) => ListLine::Sent { seat, text },
            None => ListLine::Silent,
        }
    }

    /// Whether the line has nothing of moves.
    pub(crate) fn is_silent(&self) -> bool
        ensures { IsTrue result ↔ (self.now ≡ Silent) }
    {
        matches!(self, ListLine::Silent)
    }
}

/// A line without the carriage return that may end it.
pub(crate) fn without_return(line: &[u8]) -> &[u8]
    ensures { IsBare line.now result.now }
{
    match line.split_last() {
        Some((b'\r', text)) => text,
        _ => line,
    }
}

/// The end of a record that a line is, with a moment or without.
fn record_end(line: &[u8]) -> Option<RecordEnd>
    ensures found { IfSome result (IsEnd line.now) }
    ensures none { IfNone result ((end : AnyEnd) → IsEnd line.now end → ⊥) }
{
    match plain_end(line) {
        Some(end) => Some(end),
        None => timed_end(line),
    }
}

fn plain_end(line: &[u8]) -> Option<RecordEnd>
    ensures found { IfSome result (λ end. SpellsEntry line.now (EndEntry end.outcome)) }
    ensures none { IfNone result ((end : AnyEnd)
        → SpellsEntry line.now (EndEntry end.outcome)
        → ⊥) }
{
    let entry = read_entry(line)?;
    end_of(&entry)
}

fn timed_end(line: &[u8]) -> Option<RecordEnd>
    ensures found { IfSome result (IsEnd line.now) }
    ensures none { IfNone result ((end : AnyEnd) (at : ℕ)
        → SpellsTimed line.now (record { at = at; entry = EndEntry end.outcome })
        → ⊥) }
{
    let timed = read_timed(line)?;
    end_of(&timed.entry)
}

/// The end of a record that an entry is, if it is no move.
fn end_of(entry: &Entry) -> Option<RecordEnd>
    ensures found { IfSome result (λ end. entry.now ≡ EndEntry end.outcome) }
    ensures none { IfNone result ((end : AnyEnd) → entry.now ≡ EndEntry end.outcome → ⊥) }
{
    match entry {
        Entry::End { outcome } => Some(RecordEnd { outcome: *outcome }),
        Entry::Move { .. } => None,
    }
}

/// The bytes of a message, from those that a seat has sent if a zero byte ends them.
fn without_zero(bytes: Vec<u8>) -> Option<Vec<u8>>
    ensures found { IfSome result (λ text. bytes.items ≡ text.items ++ 0 ∷ []) }
    ensures none { IfNone result ((text : List ℕ) → bytes.items ≡ text ++ 0 ∷ [] → ⊥) }
{
    let mut text = bytes;
    match text.pop() {
        Some(0) => Some(text),
        _ => None,
    }
}

/// Whether a line that is no event of a script has nothing of moves.
fn is_silent(line: &[u8]) -> bool
    ensures { IsTrue result ↔ IsPassedOver line.now }
{
    if line.is_empty() {
        return true;
    }
    if is_comment(line) {
        return true;
    }
    if has_players(line) {
        return true;
    }
    if has_start(line) {
        return true;
    }
    has_config(line)
}

/// Whether a line is a comment, as descriptions have them.
fn is_comment(line: &[u8]) -> bool
    ensures { IsTrue result ↔ ((text : List ℕ) × line.now ≡ codes "//" ++ text) }
{
    after_text(b"//", line).is_some()
}

fn has_players(line: &[u8]) -> bool
    ensures { IsTrue result ↔ ((names : List (List ℕ)) × SpellsPlayers line.now names) }
{
    read_players(line).is_some()
}

fn has_start(line: &[u8]) -> bool
    ensures { IsTrue result ↔ ((start : AnyStart) × SpellsStart line.now start) }
{
    read_start(line).is_some()
}

fn has_config(line: &[u8]) -> bool
    ensures { IsTrue result ↔ ((config : AnyConfig) × SpellsConfig line.now config) }
{
    read_config(line).is_some()
}
