//! Lists of positions that come next, each kept once.
ghost use Rattle.std.specs.Prelude.{All, length};
ghost use Rattle.rbg_shifts.specs.internal.Spans.{IsNodeWithin};

use rbg_base::{Memory, Position};
use std::alloc::Global;
use std::collections::HashMap;

/// A list of positions that come next somewhere in the rules, and whether words may end there.
#[derive(Clone, Copy, Drop)]
pub(crate) struct Node {
    pub start: usize,
    pub end: usize,
    pub may_end: bool,
}

/// The lists in one array, and a node for each that differs from the others.
pub(crate) struct Interner {
    pub positions: Vec<Position>,
    pub nodes: Vec<Node>,
    /// A node by the hash of its list. If two nodes have one hash, only the later one is found.
    spots: HashMap<u64, usize>,
    ghost within: { All (IsNodeWithin (length positions.items)) nodes.items },
}

/// Written by hand: dropping the lists is then one call in the proofs of their owners, not a step for each part.
impl Drop for Interner {
    fn drop(self) {
        let Interner {
            positions: _,
            nodes: _,
            spots: _,
        } = self;
    }
}

impl Node {
    /// A node with an empty list.
    pub(crate) const NONE: Node = Node {
        start: 0,
        end: 0,
        may_end: false,
    };
}

/// A hash of a list that depends on each member and on their order, and on whether words may end there.
fn hash_of(positions: &[Position], may_end: bool) -> u64 {
    let mut hash: u64 = if may_end { 1 } else { 0xcbf2_9ce4_8422_2325 };
    for position in positions {
        hash = (hash ^ (*position as u64)).wrapping_mul(0x0000_0100_0000_01b3);
    }
    hash ^ (hash >> 32)
}

impl Interner {
    ghost use Rattle.std.specs.Prelude.{◌≡◌, ◌<◌, [], IfOk, OnOk, IfSome, IsTrue, slice_index_or};
    ghost use Rattle.rbg_shifts.specs.internal.Spans.{no_node};
    ghost use Rattle.rbg_shifts.specs.internal.Interned.{list_at, may_end_at, IsKept, ExtendsInterner};

    /// An interner without lists.
    pub(crate) fn new(alloc: Global) -> Interner
        ensures { result.nodes.items ≡ [] }
    {
        Interner {
            positions: Vec::new(alloc),
            nodes: Vec::new(alloc),
            spots: HashMap::new(alloc),
        }
    }

    /// A node, or an empty one if it isn't there.
    pub(crate) fn node(&self, node: usize) -> Node
        ensures node { result ≡ slice_index_or self.now.nodes.items node no_node }
        ensures within { IsNodeWithin (length self.now.positions.items) result }
    {
        if node < self.nodes.len() {
            self.nodes[node]
        } else {
            Node::NONE
        }
    }

    /// The list of a node.
    pub(crate) fn list(&self, node: usize) -> &[Position]
        ensures { result.now ≡ list_at self.now node }
    {
        let node = self.node(node);
        &self.positions[node.start..node.end]
    }

    /// Whether words may end at a node.
    pub(crate) fn may_end(&self, node: usize) -> bool
        ensures { result ≡ may_end_at self.now node }
    {
        self.node(node).may_end
    }

    /// The node of a list, which is a new one if no node has it.
    pub(crate) fn keep(&mut self, positions: &[Position], may_end: bool) -> Result<usize, Memory>
        ensures extends { OnOk result (ExtendsInterner self.old self.new) }
        ensures kept { IfOk result (IsKept self.new positions.now may_end) }
    {
        let hash = hash_of(positions, may_end);
        if let Some(node) = self.find(hash, positions, may_end) {
            return Ok(node);
        }
        let node = self.push(positions, may_end)?;
        self.spots.insert(hash, node)?;
        Ok(node)
    }

    /// As `keep`, but looks at one node first.
    pub(crate) fn keep_as(
        &mut self,
        node: usize,
        positions: &[Position],
        may_end: bool,
    ) -> Result<usize, Memory>
        ensures extends { OnOk result (ExtendsInterner self.old self.new) }
        ensures kept { IfOk result (IsKept self.new positions.now may_end) }
    {
        if node >= self.nodes.len() || !self.holds(node, positions, may_end) {
            return self.keep(positions, may_end);
        }
        Ok(node)
    }

    /// The node with that hash, if it has this list.
    fn find(&self, hash: u64, positions: &[Position], may_end: bool) -> Option<usize>
        ensures { IfSome result (IsKept self.now positions.now may_end) }
    {
        let node = *self.spots.get(&hash)?;
        if node < self.nodes.len() && self.holds(node, positions, may_end) {
            Some(node)
        } else {
            None
        }
    }

    /// Whether a node has this list.
    fn holds(&self, node: usize, positions: &[Position], may_end: bool) -> bool
        requires { node < length self.now.nodes.items }
        ensures { IsTrue result → IsKept self.now positions.now may_end node }
    {
        self.may_end(node) == may_end && self.list(node) == positions
    }

    /// Appends a list and its node.
    fn push(&mut self, positions: &[Position], may_end: bool) -> Result<usize, Memory>
        ensures extends { OnOk result (ExtendsInterner self.old self.new) }
        ensures kept { IfOk result (IsKept self.new positions.now may_end) }
    {
        let start = self.positions.len();
        self.positions.extend_from_slice(positions)?;
        let end = self.positions.len();
        let node = self.nodes.len();
        self.nodes.push(Node {
            start,
            end,
            may_end,
        })?;
        Ok(node)
    }
}
