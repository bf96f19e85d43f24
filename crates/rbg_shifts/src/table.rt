//! The table of leaps: for each node and each vertex an entry, with its targets.
ghost use Rattle.std.specs.Prelude.{All, length};
ghost use Rattle.rbg_shifts.specs.Entries.{IsWithin};

use crate::adding::{NOWHERE, add, add_all};
use crate::entries::entry_in_place;
use crate::target::Target;
use rbg_base::{Memory, Vertex};
use std::alloc::{AllocError, Global};

/// The leaps from one place and vertex: which of the targets they are, and whether a word may end on the way. There are
/// many entries, so each is small.
#[derive(Clone, Copy, Drop)]
pub(crate) struct Entry {
    /// Where its targets begin among all of them.
    pub start: u32,
    /// How many they are.
    pub many: u16,
    pub ends: bool,
}

/// Where an entry is: its node and its vertex.
#[derive(Clone, Copy, Drop)]
pub(crate) struct Spot {
    pub node: usize,
    pub vertex: Vertex,
}

/// An entry for each node and each vertex, node by node, with targets. Entries may share targets.
#[derive(Drop)]
pub(crate) struct Table {
    pub vertices: usize,
    pub entries: Vec<Entry>,
    pub targets: Vec<Target>,
    ghost within: { All (IsWithin (length targets.items)) entries.items },
}

impl Entry {
    /// An entry without targets.
    pub(crate) const NONE: Entry = Entry {
        start: 0,
        many: 0,
        ends: false,
    };
}

impl Table {
    ghost use Rattle.std.specs.Prelude.{◌≡◌, ℕ, ◌+◌, ◌-◌, ◌*◌, ◌<◌, ◌≤◌, ◌^◌, replicate, IfOk, OnOk, IfSome, IfNone};
    ghost use Rattle.rbg_shifts.specs.Made.{no_entry};
    ghost use Rattle.rbg_shifts.specs.internal.Tables.{entry_at, Shares, Grows, AddsTarget, AddsAll};

    /// An empty entry for each node and each vertex, appended node by node: that takes fewer instructions than one large
    /// fill.
    fn empty_entries(
        alloc: Global,
        nodes: usize,
        vertices: usize,
        places: usize,
    ) -> Result<Vec<Entry>, Memory>
        requires { places ≡ nodes * vertices }
        ensures { IfOk result (λ entries. entries.items ≡ replicate places no_entry) }
    {
        let one_node = vec![in alloc; Entry::NONE; vertices]?;
        let mut entries = Vec::with_capacity(alloc, places)?;
        for _ in 0..nodes {
            entries.extend_from_slice(&one_node)?;
        }
        Ok(entries)
    }

    /// An empty table of this many places, one for each node and each vertex. Most places have one or two targets, so
    /// there is room for one each: a buffer that grows from nothing would copy them again and again.
    pub(crate) fn new(
        alloc: Global,
        nodes: usize,
        vertices: usize,
        places: usize,
    ) -> Result<Table, Memory>
        requires { places ≡ nodes * vertices }
        ensures vertices { IfOk result (λ t. t.vertices ≡ vertices) }
        ensures entries { IfOk result (λ t. t.entries.items ≡ replicate places no_entry) }
    {
        Ok(Table {
            vertices,
            entries: Table::empty_entries(alloc, nodes, vertices, places)?,
            targets: Vec::with_capacity(alloc, places)?,
        })
    }

    /// The index of the entry of a node and a vertex. Returns None if it is beyond all memory.
    #[inline(always)]
    fn place(&self, node: usize, vertex: Vertex) -> Option<usize>
        ensures some { IfSome result (λ place. place ≡ node * self.now.vertices + vertex) }
        ensures none { IfNone result (2 ^ 64 ≤ node * self.now.vertices + vertex) }
    {
        match node.checked_mul(self.vertices) {
            Some(base) => base.checked_add(vertex as usize),
            None => None,
        }
    }

    /// The entry of a node and a vertex, or an empty one if it isn't there.
    #[inline(always)]
    pub(crate) fn entry(&self, node: usize, vertex: Vertex) -> Entry
        ensures entry { result ≡ entry_at self.now node vertex }
        ensures within { IsWithin (length self.now.targets.items) result }
    {
        match self.place(node, vertex) {
            Some(place) => entry_in_place(&self.entries, place),
            None => Entry::NONE,
        }
    }

    /// The entry of a node and a vertex, which is there. It is borrowed: a copy would be read as one word, from which
    /// each field is cut.
    #[inline(always)]
    pub(crate) fn entry_there(&self, node: usize, vertex: Vertex) -> &Entry
        requires { node * self.now.vertices + vertex < length self.now.entries.items }
        ensures entry { result.now ≡ entry_at self.now node vertex }
        ensures within { (size : ℕ) → All (IsWithin size) self.now.entries.items → IsWithin size result.now }
    {
        &self.entries[node * self.vertices + vertex as usize]
    }

    /// Puts an entry of a node and a vertex in its place, with targets that are there.
    #[inline(always)]
    pub(crate) fn share(&mut self, node: usize, vertex: Vertex, entry: Entry)
        requires there { node * self.old.vertices + vertex < length self.old.entries.items }
        requires within { IsWithin (length self.old.targets.items) entry }
        ensures { Shares self.old self.new node vertex entry }
    {
        let place = node * self.vertices + vertex as usize;
        self.entries[place] = entry;
    }

    /// Puts the entry of a node and a vertex in its place, with all targets from a place on. Returns an error if the
    /// entry can't hold their numbers: after 4,294,967,295 targets, which take 64 gigabytes, and for more than 65,535
    /// targets, which never occurs. Up to 64 vertices each target of an entry has a position of its own, of which there
    /// are at most 20,000. From 65 vertices on, the limit of words allows at most 4,194,304 / 65 for the positions and
    /// columns of one entry.
    #[inline(always)]
    pub(crate) fn put(
        &mut self,
        node: usize,
        vertex: Vertex,
        start: usize,
        ends: bool,
    ) -> Result<(), Memory>
        requires there { node * self.old.vertices + vertex < length self.old.entries.items }
        requires start { start ≤ length self.old.targets.items }
        ensures { OnOk result (Shares self.old self.new node vertex (record { start = start; many = length self.old.targets.items - start; ends = ends })) }
    {
        let many = self.targets.len() - start;
        if start > u32::MAX as usize || many > u16::MAX as usize {
            return Err(AllocError);
        }
        let place = node * self.vertices + vertex as usize;
        let entry = &mut self.entries[place];
        entry.start = start as u32;
        entry.many = many as u16;
        entry.ends = ends;
        Ok(())
    }

    /// Adds a target to those from a place on.
    #[inline(always)]
    pub(crate) fn add(&mut self, start: usize, target: Target) -> Result<(), Memory>
        requires { start ≤ length self.old.targets.items }
        ensures grows { OnOk result (Grows start self.old self.new) }
        ensures adds { OnOk result (AddsTarget start self.old.targets.items self.new.targets.items target) }
    {
        let mut likely = NOWHERE;
        add(&mut self.targets, start, target, &mut likely)
    }

    /// Adds the targets between two places to those from a place on.
    #[inline(always)]
    pub(crate) fn add_all(&mut self, start: usize, from: usize, to: usize) -> Result<(), Memory>
        requires start { start ≤ length self.old.targets.items }
        requires before { to ≤ start }
        ensures grows { OnOk result (Grows start self.old self.new) }
        ensures adds { OnOk result (AddsAll start self.old.targets.items self.new.targets.items from to) }
    {
        add_all(&mut self.targets, start, from, to)
    }
}
