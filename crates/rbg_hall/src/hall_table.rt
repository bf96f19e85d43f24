//! A table of a hall: its seats, and its match once it has begun.
ghost use Rattle.std.specs.Prelude.{◌≡◌, ◌↔◌, ◌+◌, ◌<◌, ◌^◌, ◌++◌, ◌∷◌, [], ℕ, Option, Some, None, false, length, slice_get, slice_set, is_none, option_map, IfNone, IfOk, IfSome, IsTrue, OnOk};
ghost use Rattle.rbg_wire.specs.Bytes.{LacksByte};
ghost use Rattle.rbg_match.specs.Config.{IsWithinLimits};
ghost use Rattle.rbg_match.specs.Arrivals.{arrival_of};
ghost use Rattle.rbg_match.specs.Matches.{HasHistory};
ghost use Rattle.rbg_wire.specs.Inboxes.{item_of};
ghost use Rattle.rbg_wire.specs.Whole.{IsCutAlone};
ghost use Rattle.rbg_match.specs.Limits.{message_limit};
ghost use Rattle.rbg_hall.specs.Tables.{AreTaken, HasNoSeat, HasSeat, SitsAt, joins, leaves, new_table, says};
ghost use Rattle.rbg_hall.specs.TableHearing.{HearsFor, SaysWhole, input_of, line_in};
ghost use Rattle.rbg_hall.specs.internal.Running.{ComesWhole};
ghost use Rattle.rbg_hall.specs.internal.TableHearing.{BeginsFor, PlaysFor, IsFirstAt, IsSeatOf};

use crate::input::TableInput;
use crate::line::Speaker;
use crate::queues::Queues;
use crate::running::Running;
use rbg_base::Memory;
use rbg_match::{Arrival, Config, Match};
use rbg_rules::Game;
use rbg_script::Event;
use rbg_serving::Opening;
use rbg_wire::{Reason, Took};
use std::alloc::Global;
use std::marker::Model;
use std::mem::replace;

/// How far a table is.
#[derive(Drop)]
pub(crate) enum Phase {
    /// Its match has not begun.
    Waiting(Game),
    /// Its match has begun.
    Begun(Running),
    /// Its match was to begin, and memory ran out.
    Failed,
}

/// A table of a hall: its seats, and its match once all of them are taken. Contracts see its state. What it hears is all
/// or nothing for the caller, who rolls back what a refusal left in the queues, and asks the table no more.
pub(crate) struct HallTable {
    text: Vec<u8>,
    config: Config,
    /// The line on each seat, seat 1 first.
    seats: Vec<Option<u64>>,
    phase: Phase,
}

impl Model for HallTable {
    ghost use Rattle.rbg_hall.specs.Tables.{TableState};
    ghost use Rattle.rbg_hall.specs.internal.TableCodes.{coded_table};

    ghost Value = { TableState };

    ghost coded = { coded_table };

    ghost use Rattle.rbg_hall.specs.internal.TableParts.{IsSeated, begun_in, game_in};

    ghost view = { λ t. record {
      game = game_in t.phase;
      text = t.text.items;
      config = t.config;
      seats = t.seats.items;
      begun = begun_in t.phase;
    } };

    ghost invariant = { λ t. IsSeated t.text.items t.config t.seats.items t.phase };
}

/// Written out, so that letting a table go is one call in the proofs of those who hold one, not a step for each part.
impl Drop for HallTable {
    fn drop(self) {
        let HallTable {
            text: _,
            config: _,
            seats: _,
            phase: _,
        } = self;
    }
}

impl HallTable {
    /// A table where nobody sits, for a match of this game, whose text it is. No byte of the text may be zero.
    pub(crate) fn new(
        alloc: Global,
        game: Game,
        text: Vec<u8>,
        config: Config,
    ) -> Result<HallTable, Memory>
        requires no_zero { LacksByte 0 text.items }
        requires limits { IsWithinLimits config }
        ensures { IfOk result (λ table. table ≡ new_table game text.items config) }
    {
        let seats = vec![in alloc; None; game.players()]?;
        Ok(HallTable {
            text,
            config,
            seats,
            phase: Phase::Waiting(game),
        })
    }

    /// The match, once it has begun.
    pub(crate) fn begun(&self) -> Option<&Match>
        ensures is { option_map (λ playing. playing.now) result ≡ self.now.begun }
        ensures history { IfSome result (λ playing. playing.now.failed ≡ false → HasHistory playing.now) }
    {
        match &self.phase {
            Phase::Begun(running) => Some(running.playing()),
            Phase::Waiting(_) => None,
            Phase::Failed => None,
        }
    }

    /// The config of the match.
    pub(crate) fn config(&self) -> Config
        ensures { result ≡ self.now.config }
    {
        self.config
    }

    /// Whether a line has a seat.
    pub(crate) fn has_seat(&self, line: u64) -> bool
        ensures { IsTrue result ↔ HasSeat self.now line }
    {
        self.seat_of(line).is_some()
    }

    /// The index of the seat of the line from which an input comes, if it has one.
    pub(crate) fn seat_for(&self, input: TableInput<'_>) -> Option<usize>
        ensures { IsSeatOf self.now (line_in (input_of input.entry)) result }
    {
        match line_in(input) {
            Some(line) => self.seat_of(line),
            None => None,
        }
    }

    /// Hears an event of the clock, or of a line that asked for this table, and queues what it tells its lines. The seat is
    /// that of the line. A line that has a seat gets no other one; one without a seat is heard only when it asks for one.
    pub(crate) fn hear(
        &mut self,
        input: TableInput<'_>,
        seat: Option<usize>,
        out: &mut Queues,
    ) -> Result<(), Memory>
        requires seat { IsSeatOf self.old (line_in (input_of input)) seat }
        requires whole { SaysWhole (input_of input) }
        ensures hears { OnOk result (HearsFor self.old (input_of input.entry) self.new out.old.queued out.new.queued) }
        ensures committed { out.new.committed ≡ out.old.committed }
    {
        match input {
            TableInput::Clock { at } => self.play(Arrival::Plain(Event::Tick { at }), out),
            TableInput::Joins { line, at } => match seat {
                Some(_) => Ok(()),
                None => self.seat(line, at, out),
            },
            TableInput::Arrives { at, .. } => match seat {
                Some(_) => self.play(Arrival::Plain(Event::Tick { at }), out),
                None => Ok(()),
            },
            TableInput::Says { line, at, took } => match seat {
                Some(index) => self.hear_item(index, Speaker { line, at }, took, out),
                None => Ok(()),
            },
            TableInput::Leaves { at, .. } => match seat {
                Some(index) => self.leave_seat(index, at, out),
                None => Ok(()),
            },
        }
    }

    /// Whether the match has not begun.
    pub(crate) fn is_waiting(&self) -> bool
        ensures { result ≡ is_none self.now.begun }
    {
        match &self.phase {
            Phase::Begun(_) => false,
            Phase::Waiting(_) => true,
            Phase::Failed => true,
        }
    }

    /// The index of the seat on which a line sits. The seat's number is one more.
    pub(crate) fn seat_of(&self, line: u64) -> Option<usize>
        ensures sits { IfSome result (SitsAt self.now line) }
        ensures small { IfSome result (λ index. index + 1 < 2 ^ 64) }
        ensures none { IfNone result (HasNoSeat self.now line) }
    {
        first_index(&self.seats, Some(line))
    }

    /// The match handles what arrives, if it has begun.
    fn play(&mut self, arrival: Arrival<'_>, out: &mut Queues) -> Result<(), Memory>
        requires { ComesWhole arrival }
        ensures plays { OnOk result (PlaysFor self.old (arrival_of arrival.entry) self.new out.old.queued out.new.queued) }
        ensures committed { out.new.committed ≡ out.old.committed }
    {
        match &mut self.phase {
            Phase::Begun(running) => running.step(arrival, &self.seats, out),
            Phase::Waiting(_) => Ok(()),
            Phase::Failed => Ok(()),
        }
    }

    /// A line that has no seat asks for one, and gets the first that is free. With the last one the match begins.
    fn seat(&mut self, line: u64, at: u64, out: &mut Queues) -> Result<(), Memory>
        requires { HasNoSeat self.old line }
        ensures hears { OnOk result (HearsFor self.old (joins line at) self.new out.old.queued out.new.queued) }
        ensures committed { out.new.committed ≡ out.old.committed }
    {
        if !self.is_waiting() {
            return out.refuse(line, Reason::NoSeat);
        }
        let Some(index) = self.free_seat() else {
            return out.refuse(line, Reason::NoSeat);
        };
        self.take_seat(index, Some(line));
        match self.free_seat() {
            Some(_) => Ok(()),
            None => self.begin(at, out),
        }
    }

    /// The index of the first free seat.
    fn free_seat(&self) -> Option<usize>
        ensures found { IfSome result (IsFirstAt self.now.seats None) }
        ensures none { IfNone result (AreTaken self.now.seats) }
    {
        first_index(&self.seats, None)
    }

    /// A line takes a seat, or leaves it.
    fn take_seat(&mut self, index: usize, line: Option<u64>)
        requires { index < length self.old.seats }
        ensures { self.new ≡ record self.old { seats = slice_set self.old.seats index line } }
    {
        self.seats[index] = line;
    }

    /// The match begins.
    fn begin(&mut self, at: u64, out: &mut Queues) -> Result<(), Memory>
        ensures begins { OnOk result (BeginsFor self.old at self.new out.old.queued out.new.queued) }
        ensures committed { out.new.committed ≡ out.old.committed }
    {
        let Phase::Waiting(game) = replace(&mut self.phase, Phase::Failed) else {
            return Err(Memory);
        };
        let opening = Opening {
            text: &self.text,
            config: self.config,
            now: at,
        };
        let running = Running::open(game, opening, &self.seats, out)?;
        self.phase = Phase::Begun(running);
        Ok(())
    }

    /// An item of the line on this seat is refused before the match begins, and handed to the match afterwards.
    fn hear_item(
        &mut self,
        index: usize,
        by: Speaker,
        took: Took<'_>,
        out: &mut Queues,
    ) -> Result<(), Memory>
        requires sits { SitsAt self.old by.line index }
        requires small { index + 1 < 2 ^ 64 }
        requires whole { IsCutAlone message_limit (item_of took) }
        ensures hears { OnOk result (HearsFor self.old (says by.line by.at (item_of took.entry)) self.new
            out.old.queued out.new.queued) }
        ensures committed { out.new.committed ≡ out.old.committed }
    {
        if self.is_waiting() {
            return out.refuse(by.line, Reason::OutOfTurn);
        }
        let item = Arrival::Item {
            seat: index as u64 + 1,
            at: by.at,
            took,
        };
        self.play(item, out)
    }

    /// The end of the line on this seat frees the seat before the match begins, and goes to the match afterwards.
    fn leave_seat(&mut self, index: usize, at: u64, out: &mut Queues) -> Result<(), Memory>
        requires there { index < length self.old.seats }
        requires small { index + 1 < 2 ^ 64 }
        ensures hears { (line : ℕ) → SitsAt self.old line index →
            OnOk result (HearsFor self.old (leaves line at) self.new out.old.queued out.new.queued) }
        ensures committed { out.new.committed ≡ out.old.committed }
    {
        if self.is_waiting() {
            self.take_seat(index, None);
            return Ok(());
        }
        let end = Event::Ended {
            source: index as u64 + 1,
            at,
        };
        self.play(Arrival::Plain(end), out)
    }
}

/// The line from which an input comes; none if it is of the clock.
fn line_in(input: TableInput<'_>) -> Option<u64>
    ensures { result ≡ line_in (input_of input.entry) }
{
    match input {
        TableInput::Clock { .. } => None,
        TableInput::Joins { line, .. } => Some(line),
        TableInput::Arrives { line, .. } => Some(line),
        TableInput::Says { line, .. } => Some(line),
        TableInput::Leaves { line, .. } => Some(line),
    }
}

/// The first index at which a seat is free, or at which a line sits.
fn first_index(seats: &[Option<u64>], wanted: Option<u64>) -> Option<usize>
    ensures found { IfSome result (IsFirstAt seats.now wanted) }
    ensures small { IfSome result (λ index. index + 1 < 2 ^ 64) }
    ensures none { IfNone result ((index : ℕ) → ¬ (slice_get seats.now index ≡ Some wanted)) }
{
    for (index, seat) in seats.iter().enumerate() {
        if *seat == wanted {
            return Some(index);
        }
    }
    None
}
