//! The bytes that are queued for the seats.
ghost use Rattle.std.specs.Prelude.{
  ◌≡◌,
  ℕ,
  ◌-◌,
  ◌<◌,
  ◌≤◌,
  ◌++◌,
  List,
  [],
  length,
  take,
  replicate,
  slice_index,
  slice_index_or,
  IfOk,
  OnOk,
  OnErr,
};
ghost use Rattle.std.specs.Global.{Vec};
ghost use Rattle.rbg_wire.specs.Messages.{AbstractMessage, ArePairs, HasSpelling, message_of, move_message, spelling};
ghost use Rattle.rbg_match.specs.Deliveries.{AreMarks, Delivery, delivered, to_seat, to_each, to_others};
ghost use Rattle.rbg_match.specs.Limits.{most_seats};
ghost use Rattle.rbg_match.specs.internal.Saying.{QueuesMessages};

use rbg_base::Pair;
use rbg_wire::{Message, write_message, write_move};
use std::alloc::{AllocError, Global};
use std::marker::Model;
use std::mem::replace;

/// The maximum number of seats of a match.
pub const MAX_SEATS: usize = 8;

/// The bytes that were queued for each seat since the start of the match. Seats are numbered from 1. Contracts see the
/// list of the seats' bytes, seat 1 first.
#[derive(Debug, Drop)]
pub struct Outbox {
    queues: Vec<Vec<u8>>,
    /// A buffer for a message that goes to several seats. Contracts don't see it.
    told: Vec<u8>,
}

impl Model for Outbox {
    ghost use Rattle.std.specs.Prelude.{ℕ, ◌≤◌, List, length, map};

    ghost Value = { List (List ℕ) };

    ghost view = { λ o. map (λ queue. queue.items) o.queues.items };

    ghost use Rattle.rbg_match.specs.Limits.{most_seats};

    ghost invariant = { λ o. length o.queues.items ≤ most_seats };
}

impl Outbox {
    /// An outbox in which nothing is queued.
    pub(crate) fn new(alloc: Global, seats: usize) -> Result<Outbox, AllocError>
        requires { seats ≤ most_seats }
        ensures { IfOk result (λ outbox. outbox ≡ replicate seats []) }
    {
        let mut queues = Vec::with_capacity(alloc, seats)?;
        for _ in 0..seats {
            queues.push(Vec::new(alloc))?;
        }
        Ok(Outbox {
            queues,
            told: Vec::new(alloc),
        })
    }

    /// An outbox with no seat.
    pub fn without_seats(alloc: Global) -> Outbox
        ensures { result ≡ [] }
    {
        Outbox {
            queues: Vec::new(alloc),
            told: Vec::new(alloc),
        }
    }

    /// The number of seats.
    pub fn seats(&self) -> usize
        ensures { result ≡ length self.now }
    {
        self.queues.len()
    }

    /// The bytes that were queued for a seat since the start of the match. It must be one of the seats.
    pub fn bytes(&self, seat: usize) -> &[u8]
        requires is_seat { 1 ≤ seat }
        requires is_there { seat ≤ length self.now }
        ensures { result.now ≡ slice_index_or self.now (seat - 1) [] }
    {
        self.queues[seat - 1].as_slice()
    }

    /// Queues a message for a seat.
    pub(crate) fn queue_message(
        &mut self,
        seat: usize,
        message: &Message<'_>,
    ) -> Result<(), AllocError>
        requires is_seat { 1 ≤ seat }
        requires is_there { seat ≤ length self.old }
        requires spelled { HasSpelling (message_of message.now) }
        ensures { QueuesMessages self.old self.new result (λ _ outgoing.
            outgoing ≡ to_seat seat (message_of message.now)) }
    {
        write_message(message, &mut self.queues[seat - 1])
    }

    /// Queues a message for each seat.
    pub(crate) fn queue_for_each(&mut self, message: &Message<'_>) -> Result<(), AllocError>
        requires { HasSpelling (message_of message.now) }
        ensures { QueuesMessages self.old self.new result (λ _ outgoing.
            outgoing ≡ to_each (length self.old) (message_of message.now)) }
    {
        for index in 0..self.seats() {
            self.queue_message(index + 1, message)?;
        }
        Ok(())
    }

    /// Queues the message of a move for each seat. It is spelt once.
    pub(crate) fn queue_move(&mut self, pairs: &[Pair]) -> Result<(), AllocError>
        requires { ArePairs pairs.now }
        ensures { QueuesMessages self.old self.new result (λ _ outgoing.
            outgoing ≡ to_each (length self.old) (move_message pairs.now)) }
    {
        let alloc = *self.told.allocator();
        let mut told = replace(&mut self.told, Vec::new(alloc));
        told.clear();
        write_move(pairs, &mut told)?;
        for index in 0..self.seats() {
            self.queue(index + 1, &told)?;
        }
        self.told = told;
        Ok(())
    }

    /// Queues the bytes of a message for a seat.
    fn queue(&mut self, seat: usize, told: &[u8]) -> Result<(), AllocError>
        requires is_seat { 1 ≤ seat }
        requires is_there { seat ≤ length self.old }
        ensures { (message : AbstractMessage) → told.now ≡ spelling message →
            QueuesMessages self.old self.new result (λ _ outgoing. outgoing ≡ to_seat seat message) }
    {
        append(told, &mut self.queues[seat - 1])
    }

    /// Queues a message for each seat but one.
    pub(crate) fn queue_for_others(
        &mut self,
        one: usize,
        message: &Message<'_>,
    ) -> Result<(), AllocError>
        requires { HasSpelling (message_of message.now) }
        ensures { QueuesMessages self.old self.new result (λ _ outgoing.
            outgoing ≡ to_others (length self.old) one (message_of message.now)) }
    {
        for index in 0..self.seats() {
            if index + 1 != one {
                self.queue_message(index + 1, message)?;
            }
        }
        Ok(())
    }

    /// The number of bytes of each seat, for `cut_back`.
    pub fn marks(&self) -> [usize; MAX_SEATS]
        ensures { AreMarks self.now result }
    {
        lengths(&self.queues)
    }

    /// Takes back what was queued since the marks were taken.
    pub fn cut_back(&mut self, marks: &[usize; MAX_SEATS])
        ensures { (before : List (List ℕ)) (outgoing : List Delivery) →
            self.old ≡ delivered before outgoing → AreMarks before marks.now → self.new ≡ before }
    {
        cut(&mut self.queues, marks);
    }
}

/// Appends bytes to a queue. On an error none of them is.
fn append(bytes: &[u8], queue: &mut Vec<u8>) -> Result<(), AllocError>
    ensures ok { OnOk result (queue.new.items ≡ queue.old.items ++ bytes.now) }
    ensures err { OnErr result (queue.new.items ≡ queue.old.items) }
{
    queue.extend_from_slice(bytes)
}

/// The length of each queue.
fn lengths(queues: &[Vec<u8>]) -> [usize; MAX_SEATS]
    requires { length queues.now ≤ most_seats }
    ensures { (i : ℕ) (d : Vec ℕ) →
        i < length queues.now → slice_index result i
        ≡ length (slice_index_or queues.now i d).items }
{
    let mut marks = [0; MAX_SEATS];
    for (index, queue) in queues.iter().enumerate() {
        marks[index] = queue.len();
    }
    marks
}

/// Cuts each queue to its mark.
fn cut(queues: &mut [Vec<u8>], marks: &[usize; MAX_SEATS])
    requires { length queues.old ≤ most_seats }
    ensures { (i : ℕ) (d : Vec ℕ) →
        i < length queues.old →
        (slice_index_or queues.new i d).items
        ≡ take (slice_index marks.now i) (slice_index_or queues.old i d).items }
{
    for index in 0..queues.len() {
        queues[index].truncate(marks[index]);
    }
}
