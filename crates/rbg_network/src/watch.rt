//! One wait for all sockets of the system.

use crate::readiness::Readiness;
use mio::event::{Event, Source};
use mio::{Events, Interest, Poll, Token};
use std::alloc::Global;
use std::cell::{Cell, RefCell};
use std::io;
use std::rc::Rc;
use std::time::{Duration, Instant};

/// The most sockets that one look at the system reports.
const REPORTS: usize = 256;

/// What is known of a socket, shared by the socket and the watch.
pub(crate) type Mark = Rc<Cell<Readiness>>;

/// One wait for all sockets that were registered with it.
#[derive(Drop)]
pub(crate) struct Watch<'a> {
    rt: &'a HostRuntime,
    alloc: Global,
    start: Instant,
    /// The microseconds since the start, as they were read last.
    last: Cell<u64>,
    poll: RefCell<Poll>,
    events: RefCell<Events>,
    /// The marks of the sockets, in order of their tokens. A socket that is gone has left its mark here alone.
    marks: RefCell<Vec<Mark>>,
}

/// What came of a wait.
#[derive(Clone, Copy)]
pub(crate) struct Waited {
    /// How many microseconds it took.
    pub lasted: u64,
    /// Whether a socket has something to give.
    pub spoke: bool,
}

impl<'a> Watch<'a> {
    /// A watch over no socket.
    pub(crate) fn new(rt: &'a HostRuntime) -> io::Result<Watch<'a>> {
        let alloc = rt.alloc();
        Ok(Watch {
            rt,
            alloc,
            start: Instant::now(rt)?,
            last: Cell::new(0),
            poll: RefCell::new(Poll::new(rt)?),
            events: RefCell::new(Events::with_capacity(alloc, REPORTS)?),
            marks: RefCell::new(Vec::new(alloc)),
        })
    }

    /// Watches a socket, of which this is known.
    pub(crate) fn register<S: Source>(
        &self,
        socket: &mut S,
        readiness: Readiness,
    ) -> io::Result<Mark> {
        let mark = Rc::new(self.alloc, Cell::new(readiness))?;
        let token = self.take_token(mark.clone()?)?;
        let interest = Interest::READABLE | Interest::WRITABLE;
        if let Ok(poll) = self.poll.try_borrow() {
            poll.registry().register(socket, token, interest)?;
        }
        Ok(mark)
    }

    /// The lowest token whose socket is gone, or a new one.
    fn take_token(&self, mark: Mark) -> io::Result<Token> {
        let Ok(mut marks) = self.marks.try_borrow_mut() else {
            return Err(io::Error::from(io::ErrorKind::WouldBlock));
        };
        let marks = &mut *marks;
        let index = free_index(marks.as_slice());
        if let Some(free) = marks.get_mut(index) {
            *free = mark;
        } else {
            marks.push(mark)?;
        }
        Ok(Token(index))
    }

    /// What any socket may give counts as fresh again.
    pub(crate) fn offer_again(&self) {
        if let Ok(marks) = self.marks.try_borrow() {
            for mark in marks.iter() {
                mark.set(mark.get().offered_again());
            }
        }
    }

    /// After the end a wait begins at this moment.
    pub(crate) fn begin_ending(&self) {
        let now = self.last.get();
        if let Ok(marks) = self.marks.try_borrow() {
            for mark in marks.iter() {
                mark.set(mark.get().ending(now));
            }
        }
    }

    /// Waits until a socket gives something, or takes something again, at most so many microseconds. Where the system's
    /// clock fails, or the system can't wait, it ends at once, and no time has passed.
    pub(crate) fn wait(&self, most: u64) -> Waited {
        let began = self.now().unwrap_or(self.last.get());
        let end = began.saturating_add(most);
        let mut now = began;
        for _ in 0..u64::MAX {
            let Ok(later) = self.look(self.patience(now, end)) else {
                break;
            };
            now = later;
            if now >= end || self.wakes_at() <= now {
                break;
            }
        }
        Waited {
            lasted: now.saturating_sub(began),
            spoke: self.end_wait(now, now >= end),
        }
    }

    /// How many microseconds the system may wait.
    fn patience(&self, now: u64, end: u64) -> u64 {
        self.wakes_at().min(end).saturating_sub(now)
    }

    /// The first moment at which a wait ends for a socket, as far as that is known.
    fn wakes_at(&self) -> u64 {
        let mut first = u64::MAX;
        if let Ok(marks) = self.marks.try_borrow() {
            for mark in marks.iter() {
                if let Some(at) = mark.get().wakes_at() {
                    first = first.min(at);
                }
            }
        }
        first
    }

    /// Ends a wait at this moment for each socket; it lasted as long as it was asked to or not. Returns whether one of those
    /// that are heard then has something to give.
    fn end_wait(&self, now: u64, in_full: bool) -> bool {
        let mut spoke = false;
        if let Ok(marks) = self.marks.try_borrow() {
            for mark in marks.iter() {
                let readiness = mark.get();
                spoke = spoke || readiness.speaks(now, in_full);
                mark.set(readiness.waited(now, in_full));
            }
        }
        spoke
    }

    /// Asks the system what is ready, which it may wait for, and marks it. Returns the moment after that.
    fn look(&self, patience: u64) -> io::Result<u64> {
        let (Ok(mut poll), Ok(mut events), Ok(marks)) = (
            self.poll.try_borrow_mut(),
            self.events.try_borrow_mut(),
            self.marks.try_borrow(),
        ) else {
            return self.now();
        };
        let events = &mut *events;
        poll.poll(events, Some(Duration::from_micros(patience)))?;
        let now = self.now()?;
        for event in events.iter() {
            mark_event(marks.as_slice(), event, now);
        }
        Ok(now)
    }

    /// The microseconds since the watch was made.
    fn now(&self) -> io::Result<u64> {
        let passed = self.start.elapsed(self.rt)?;
        let now = u64::try_from(passed.as_micros()).unwrap_or(u64::MAX);
        self.last.set(now);
        Ok(now)
    }
}

/// Marks the socket that the system reports, at this moment or before.
fn mark_event(marks: &[Mark], event: &Event, now: u64) {
    if let Some(mark) = marks.get(event.token().0) {
        let closed = event.is_read_closed() || event.is_error();
        let reported = mark
            .get()
            .reported(now, event.is_readable(), event.is_writable(), closed);
        mark.set(reported);
    }
}

/// The index of the first mark that no socket shares, or the number of the marks.
fn free_index(marks: &[Mark]) -> usize {
    for (index, mark) in marks.iter().enumerate() {
        if Rc::strong_count(mark) == 1 {
            return index;
        }
    }
    marks.len()
}
