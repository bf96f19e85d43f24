//! All lists of an automaton in one array, by position.
ghost use Rattle.std.specs.Prelude.{◌≡◌, All, length, IfOk, IsTrue, slice_index_or};
ghost use Rattle.rbg_auto.specs.declared.steps.Glance.TheVariants.{Unknown};
ghost use Rattle.rbg_auto.specs.internal.Tables.{IsNextWithin, IsFirstWithin};

use crate::at_position::at_or;
use crate::span::{Node, Opening, Span};
use crate::steps::Glance;
use rbg_base::{Memory, Position};
use std::alloc::Global;

/// The array, and what was laid at each position: a node, and the opening of its inside in a list of its own. Nothing
/// is laid at position 0.
pub(crate) struct Table {
    pub entries: Vec<Position>,
    pub nodes: Vec<Node>,
    pub insides: Vec<Opening>,
    ghost within: { All (IsNextWithin (length entries.items)) nodes.items },
    ghost insides_within: { All (IsFirstWithin (length entries.items)) insides.items },
    ghost beside: { length insides.items ≡ length nodes.items },
}

/// Written by hand: dropping a table is then one call in the proofs of its owners, not a step for each part.
impl Drop for Table {
    fn drop(self) {
        let Table {
            entries: _,
            nodes: _,
            insides: _,
        } = self;
    }
}

impl Table {
    ghost use Rattle.std.specs.Prelude.{[], replicate};
    ghost use Rattle.rbg_auto.specs.internal.Tables.{Keeps, IsSpan, IsNextWithin, IsFirstWithin, listed, no_node, no_inside};
    ghost use Rattle.rbg_auto.specs.internal.Building.{AddsList, SetsNode, SetsGlance};

    /// A table of that many nodes, with nothing laid.
    pub(crate) fn new(alloc: Global, nodes: usize) -> Result<Table, Memory>
        ensures nodes { IfOk result (λ t. t.nodes.items ≡ replicate nodes no_node) }
        ensures insides { IfOk result (λ t. t.insides.items ≡ replicate nodes no_inside) }
        ensures entries { IfOk result (λ t. t.entries.items ≡ []) }
    {
        Ok(Table {
            entries: Vec::new(alloc),
            nodes: vec![in alloc; Node::NONE; nodes]?,
            insides: vec![in alloc; Opening::NONE; nodes]?,
        })
    }

    /// The list of a span.
    pub(crate) fn list(&self, span: Span) -> &[Position]
        requires { IsSpan (length self.now.entries.items) span }
        ensures { result.now ≡ listed self.now.entries.items span }
    {
        &self.entries[span.start..span.end]
    }

    /// Whether a span of the array holds the positions.
    pub(crate) fn holds(&self, span: Span, positions: &[Position]) -> bool
        ensures { IsTrue result → Keeps self.now.entries.items span positions.now }
    {
        if span.start <= span.end && span.end <= self.entries.len() {
            return &self.entries[span.start..span.end] == positions;
        }
        false
    }

    /// What was laid at a position.
    pub(crate) fn node(&self, position: Position) -> Node
        ensures node { result ≡ slice_index_or self.now.nodes.items position no_node }
        ensures within { IsNextWithin (length self.now.entries.items) result }
    {
        at_or(&self.nodes, position, Node::NONE)
    }

    /// How the words of the inside of a position begin.
    pub(crate) fn inside(&self, position: Position) -> Opening
        ensures inside { result ≡ slice_index_or self.now.insides.items position no_inside }
        ensures within { IsFirstWithin (length self.now.entries.items) result }
    {
        at_or(&self.insides, position, Opening::NONE)
    }

    /// Lays a node and an opening at a position, if the table has it.
    pub(crate) fn set(&mut self, position: Position, node: Node, inside: Opening)
        requires within { IsNextWithin (length self.old.entries.items) node }
        requires inside_within { IsFirstWithin (length self.old.entries.items) inside }
        requires unknown { node.glance ≡ Unknown }
        ensures { SetsNode self.old self.new position node inside }
    {
        let index = position as usize;
        if index < self.nodes.len() {
            self.nodes[index] = node;
            self.insides[index] = inside;
        }
    }

    /// Records what is known of the action at a position, if the table has it.
    pub(crate) fn set_glance(&mut self, position: Position, glance: Glance)
        ensures { SetsGlance self.old self.new position glance }
    {
        let index = position as usize;
        if index < self.nodes.len() {
            self.nodes[index].glance = glance;
        }
    }

    /// Puts a list into the array.
    pub(crate) fn push(&mut self, positions: &[Position]) -> Result<Span, Memory>
        ensures kept { IfOk result (λ span. Keeps self.new.entries.items span positions.now) }
        ensures adds { AddsList self.old self.new }
    {
        let start = self.entries.len();
        self.entries.extend_from_slice(positions)?;
        Ok(Span {
            start,
            end: self.entries.len(),
        })
    }
}
