//! The bytes that are queued for the lines.
ghost use Rattle.std.specs.Prelude.{◌≡◌, ◌<◌, ℕ, List, [], replicate, slice_index_or, IfOk, OnOk, length};
ghost use Rattle.rbg_hall.specs.TableLimits.{lines_in_all};
ghost use Rattle.rbg_hall.specs.Tellings.{refusal_to, telling, to_lines, told_on, told_to};
ghost use Rattle.rbg_hall.specs.Undoing.{at_rest, bytes_in, cut_back, undone};

use rbg_base::Memory;
use rbg_match::Outbox;
use rbg_wire::{Message, Reason, write_message};
use std::alloc::Global;
use std::marker::Model;

/// How many lines a hall has.
pub const LINES: usize = 128;

/// How long the queue of a line was.
#[derive(Clone, Copy)]
pub(crate) struct QueueMark {
    pub line: usize,
    pub len: usize,
}

/// The bytes that were queued for each line, as a transaction: what was queued since it began can be taken back. Lines are
/// numbered from 0. Contracts see what is queued for each line, and what was committed when the transaction began.
#[derive(Drop)]
pub(crate) struct Queues {
    bytes: Vec<Vec<u8>>,
    /// How long queues were before they grew, since the transaction began.
    marks: Vec<QueueMark>,
}

impl Model for Queues {
    ghost use Rattle.std.specs.Prelude.{◌≡◌, length};
    ghost use Rattle.rbg_hall.specs.Undoing.{QueueState, bytes_in, undone};

    ghost Value = { QueueState };

    ghost view = { λ q. record {
      queued = bytes_in q.bytes.items;
      committed = undone (bytes_in q.bytes.items) q.marks.items;
    } };

    ghost use Rattle.rbg_hall.specs.TableLimits.{lines_in_all};

    ghost invariant = { λ q. length q.bytes.items ≡ lines_in_all };
}

impl Queues {
    /// Queues with nothing in them.
    fn new(alloc: Global) -> Result<Queues, Memory>
        ensures { IfOk result (λ queues. queues ≡ at_rest (replicate lines_in_all [])) }
    {
        let mut bytes = Vec::with_capacity(alloc, LINES)?;
        for _ in 0..LINES {
            bytes.push(Vec::new(alloc))?;
        }
        Ok(Queues {
            bytes,
            marks: Vec::new(alloc),
        })
    }

    /// The allocator of the queues.
    pub(crate) fn allocator(&self) -> Global {
        *self.bytes.allocator()
    }

    /// How many lines there are.
    fn lines(&self) -> usize
        ensures all { result ≡ length self.now.queued }
        ensures as_many { result ≡ lines_in_all }
    {
        self.bytes.len()
    }

    /// All bytes that were queued for a line; none for a line above the last.
    fn of_line(&self, line: u64) -> &[u8]
        ensures { result.now ≡ slice_index_or self.now.queued line [] }
    {
        if line < LINES as u64 {
            return self.bytes[line as usize].as_slice();
        }
        &[]
    }

    /// Begins a transaction: what is queued now is committed.
    pub(crate) fn begin(&mut self)
        ensures { self.new ≡ at_rest self.old.queued }
    {
        self.marks.clear();
    }

    /// Takes back what was queued since the transaction began.
    pub(crate) fn roll_back(&mut self)
        ensures { self.new ≡ at_rest self.old.committed }
    {
        while let Some(mark) = self.marks.pop() {
            cut(&mut self.bytes, mark);
        }
    }

    /// Queues bytes for a line.
    fn tell(&mut self, line: u64, bytes: &[u8]) -> Result<(), Memory>
        ensures told { OnOk result (self.new.queued ≡ told_to self.old.queued (telling line bytes.now)) }
        ensures committed { self.new.committed ≡ self.old.committed }
    {
        let index = line as usize;
        if index >= self.bytes.len() {
            return Ok(());
        }
        append(&mut self.bytes, index, bytes, &mut self.marks)
    }

    /// Tells a line that its message is refused.
    pub(crate) fn refuse(&mut self, line: u64, reason: Reason) -> Result<(), Memory>
        ensures told { OnOk result (self.new.queued ≡ told_to self.old.queued (refusal_to line reason)) }
        ensures committed { self.new.committed ≡ self.old.committed }
    {
        let mut bytes = Vec::new(self.allocator());
        write_message(&Message::Refused { reason }, &mut bytes)?;
        self.tell(line, &bytes)
    }

    /// Queues the bytes of a seat for the line on it, if there is one.
    fn tell_seat(&mut self, seat: Option<u64>, bytes: &[u8]) -> Result<(), Memory>
        ensures told { OnOk result (self.new.queued ≡ told_to self.old.queued (told_on seat bytes.now)) }
        ensures committed { self.new.committed ≡ self.old.committed }
    {
        match seat {
            Some(line) => self.tell(line, bytes),
            None => Ok(()),
        }
    }

    /// Passes on what each seat has in an outbox to the line on it.
    pub(crate) fn tell_seats(
        &mut self,
        seats: &[Option<u64>],
        outbox: &Outbox,
    ) -> Result<(), Memory>
        requires { length seats.now ≡ length outbox.now }
        ensures told { OnOk result (self.new.queued ≡ told_to self.old.queued (to_lines seats.now outbox.now)) }
        ensures committed { self.new.committed ≡ self.old.committed }
    {
        for (index, seat) in seats.iter().enumerate() {
            self.tell_seat(*seat, outbox.bytes(index + 1))?;
        }
        Ok(())
    }
}

/// The bytes that were queued for each line. Lines are numbered from 0. Contracts see the list of the lines' bytes.
#[derive(Drop)]
pub struct HallOut {
    pub(crate) queues: Queues,
}

impl Model for HallOut {
    ghost use Rattle.std.specs.Prelude.{ℕ, List};

    ghost Value = { List (List ℕ) };

    ghost view = { λ o. o.queues.queued };
}

impl HallOut {
    /// Queues with nothing in them.
    pub fn new(alloc: Global) -> Result<HallOut, Memory>
        ensures { IfOk result (λ out. out ≡ replicate lines_in_all []) }
    {
        let queues = Queues::new(alloc)?;
        Ok(HallOut { queues })
    }

    /// How many lines there are.
    pub fn lines(&self) -> usize
        ensures all { result ≡ length self.now }
        ensures as_many { result ≡ lines_in_all }
    {
        self.queues.lines()
    }

    /// All bytes that were queued for a line; none for a line above the last.
    pub fn bytes(&self, line: u64) -> &[u8]
        ensures { result.now ≡ slice_index_or self.now line [] }
    {
        self.queues.of_line(line)
    }
}

/// Appends bytes to the queue of a line, and marks how long it was.
fn append(
    queues: &mut [Vec<u8>],
    line: usize,
    bytes: &[u8],
    marks: &mut Vec<QueueMark>,
) -> Result<(), Memory>
    requires { line < length queues.old }
    ensures told { OnOk result (bytes_in queues.new ≡ told_to (bytes_in queues.old) (telling line bytes.now)) }
    ensures undone { undone (bytes_in queues.new) marks.new.items
        ≡ undone (bytes_in queues.old) marks.old.items }
{
    let queue = &mut queues[line];
    let mark = QueueMark {
        line,
        len: queue.len(),
    };
    marks.push(mark)?;
    queue.extend_from_slice(bytes)
}

/// Cuts the queue of a mark to what it was.
fn cut(queues: &mut [Vec<u8>], mark: QueueMark)
    ensures { bytes_in queues.new ≡ cut_back (bytes_in queues.old) mark }
{
    if mark.line < queues.len() {
        queues[mark.line].truncate(mark.len);
    }
}
