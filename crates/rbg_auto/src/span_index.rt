//! Which lists are in the table, so that equal lists are kept once.
ghost use Rattle.std.specs.Prelude.{IfSome};
ghost use Rattle.rbg_auto.specs.internal.Tables.{Keeps};

use crate::span::Span;
use crate::table::Table;
use rbg_base::{Memory, Position};
use std::alloc::Global;
use std::collections::HashMap;

/// Where the lists in the table are, by the hash of each. If two lists have one hash, only the later one is found, so
/// the earlier one may be stored twice.
#[derive(Drop)]
pub(crate) struct SpanIndex {
    spans: HashMap<u64, Span>,
}

/// A hash of the list that depends on each member and on their order.
pub(crate) fn hash_of(positions: &[Position]) -> u64 {
    let mut hash: u64 = 0xcbf2_9ce4_8422_2325;
    for position in positions {
        hash = (hash ^ (*position as u64)).wrapping_mul(0x0000_0100_0000_01b3);
    }
    hash ^ (hash >> 32)
}

impl SpanIndex {
    /// An index of no list.
    pub(crate) fn new(alloc: Global) -> SpanIndex {
        SpanIndex {
            spans: HashMap::new(alloc),
        }
    }

    /// Where a list is that equals these positions. Returns None if the list with their hash is another one, or there
    /// is none.
    pub(crate) fn find(&self, table: &Table, hash: u64, positions: &[Position]) -> Option<Span>
        ensures { IfSome result (λ span. Keeps table.now.entries.items span positions.now) }
    {
        let span = *self.spans.get(&hash)?;
        if table.holds(span, positions) {
            Some(span)
        } else {
            None
        }
    }

    /// Records where a list with that hash is.
    pub(crate) fn store(&mut self, hash: u64, span: Span) -> Result<(), Memory> {
        self.spans.insert(hash, span)?;
        Ok(())
    }
}
