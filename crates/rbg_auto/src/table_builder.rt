//! The walk over the rules that lays down what comes after each position.
ghost use Rattle.std.specs.Prelude.{◌≡◌, ◌<◌, [], length, replicate, IfOk};
ghost use Rattle.rbg_auto.specs.internal.Tables.{Keeps, IsFirstWithin, no_node, no_inside};
ghost use Rattle.rbg_auto.specs.internal.Trees.{IsBefore};
ghost use Rattle.rbg_auto.specs.internal.Building.{AddsList, IsKeptOf, LaysAt, LaysBefore, LaysPartsBefore, LaysLevel};

use crate::rest::{Rest, again, before};
use crate::span::{Node, Opening, Span};
use crate::span_index::{SpanIndex, hash_of};
use crate::steps::Glance;
use crate::table::Table;
use crate::tree::push_first;
use rbg_base::{Memory, Position};
use rbg_rules::Rule;
use std::alloc::Global;

/// The table as far as it is laid.
///
/// A list goes into the table when the first action asks for it. Positions after which the rules continue in the same
/// way share it from then on: `kept` is where it is.
#[derive(Drop)]
pub(crate) struct TableBuilder {
    alloc: Global,
    pub table: Table,
    index: SpanIndex,
}

impl TableBuilder {
    /// A builder for this many nodes, that of position 0 included, with nothing laid.
    pub(crate) fn new(alloc: Global, positions: usize) -> Result<TableBuilder, Memory>
        ensures nodes { IfOk result (λ builder. builder.table.nodes.items ≡ replicate positions no_node) }
        ensures insides { IfOk result (λ builder.
            builder.table.insides.items ≡ replicate positions no_inside) }
        ensures entries { IfOk result (λ builder. builder.table.entries.items ≡ []) }
    {
        Ok(TableBuilder {
            alloc,
            table: Table::new(alloc, positions)?,
            index: SpanIndex::new(alloc),
        })
    }

    /// Puts the list of positions into the table, unless it is there, and returns where it is.
    fn intern(&mut self, positions: &[Position]) -> Result<Span, Memory>
        ensures adds { IfOk result (λ _. AddsList self.old.table self.new.table) }
        ensures keeps { IfOk result (λ span.
            Keeps self.new.table.entries.items span positions.now) }
    {
        let hash = hash_of(positions);
        if let Some(span) = self.index.find(&self.table, hash, positions) {
            return Ok(span);
        }
        let span = self.table.push(positions)?;
        self.index.store(hash, span)?;
        Ok(span)
    }

    /// Puts the list of what comes next into the table, unless `kept` has it, and returns where it is.
    fn keep(&mut self, rest: &Rest, kept: &mut Option<Span>) -> Result<Span, Memory>
        requires { IsKeptOf self.old.table kept.old rest.now }
        ensures adds { IfOk result (λ _. AddsList self.old.table self.new.table) }
        ensures keeps { IfOk result (λ span.
            Keeps self.new.table.entries.items span rest.now.positions.items) }
        ensures kept { IfOk result (λ _. IsKeptOf self.new.table kept.new rest.now) }
    {
        if let Some(span) = *kept {
            return Ok(span);
        }
        let span = self.intern(rest.positions.as_slice())?;
        *kept = Some(span);
        Ok(span)
    }

    /// Lays a position, after which the rest comes.
    fn lay_at(
        &mut self,
        position: Position,
        inside: Opening,
        rest: &Rest,
        kept: &mut Option<Span>,
    ) -> Result<(), Memory>
        requires kept { IsKeptOf self.old.table kept.old rest.now }
        requires inside { IsFirstWithin (length self.old.table.entries.items) inside }
        ensures lays { IfOk result (λ _.
            LaysAt self.old.table self.new.table position inside rest.now) }
        ensures kept { IfOk result (λ _. IsKeptOf self.new.table kept.new rest.now) }
    {
        let next = self.keep(rest, kept)?;
        let node = Node {
            next,
            may_end: rest.may_end,
            glance: Glance::Unknown,
        };
        self.table.set(position, node, inside);
        Ok(())
    }

    /// Lays a part of the rules.
    #[cycle(laying)]
    fn lay(&mut self, rule: &Rule, rest: &Rest, kept: &mut Option<Span>) -> Result<(), Memory>
        requires { IsKeptOf self.old.table kept.old rest.now }
        ensures lays { IfOk result (λ _. LaysBefore self.old.table self.new.table rule.now rest.now) }
        ensures kept { IfOk result (λ _. IsKeptOf self.new.table kept.new rest.now) }
    {
        match rule {
            Rule::Act(position) => self.lay_at(*position, Opening::NONE, rest, kept),
            Rule::Pattern { position, inside } => {
                let inside = self.lay_level(inside)?;
                self.lay_at(*position, inside, rest, kept)
            }
            Rule::Then(parts) => self.lay_sequence(parts.as_slice(), rest, kept),
            Rule::Or(parts) => {
                for part in parts {
                    self.lay(part, rest, kept)?;
                }
                Ok(())
            }
            Rule::Star(part) => {
                let again = again(self.alloc, part, rest)?;
                let mut own = None;
                self.lay(part, &again, &mut own)
            }
        }
    }

    /// Lays a level: the rules, or the inside of a pattern. Nothing comes after it.
    #[cycle(laying)]
    pub(crate) fn lay_level(&mut self, rule: &Rule) -> Result<Opening, Memory>
        ensures { IfOk result (λ opening.
            LaysLevel self.old.table self.new.table rule.now opening) }
    {
        let mut first = Vec::new(self.alloc);
        let may_be_empty = push_first(rule, &mut first)?;
        let first = self.intern(first.as_slice())?;
        let rest = Rest {
            positions: Vec::new(self.alloc),
            may_end: true,
        };
        let mut kept = None;
        self.lay(rule, &rest, &mut kept)?;
        Ok(Opening {
            first,
            may_be_empty,
        })
    }

    /// Lays a part of a sequence, and returns what comes before it.
    #[cycle(laying)]
    fn lay_part(
        &mut self,
        part: &Rule,
        rest: &Rest,
        kept: &mut Option<Span>,
    ) -> Result<Rest, Memory>
        requires { IsKeptOf self.old.table kept.old rest.now }
        ensures lays { IfOk result (λ _. LaysBefore self.old.table self.new.table part.now rest.now) }
        ensures kept { IfOk result (λ _. IsKeptOf self.new.table kept.new rest.now) }
        ensures before { IfOk result (λ before.
            IsBefore part.now rest.now.positions.items rest.now.may_end before.positions.items
            before.may_end) }
    {
        self.lay(part, rest, kept)?;
        before(self.alloc, part, rest)
    }

    /// Lays the parts of a sequence from the last to the first.
    #[cycle(laying)]
    fn lay_sequence(
        &mut self,
        parts: &[Rule],
        rest: &Rest,
        kept: &mut Option<Span>,
    ) -> Result<(), Memory>
        requires { IsKeptOf self.old.table kept.old rest.now }
        ensures lays { IfOk result (λ _.
            LaysPartsBefore self.old.table self.new.table parts.now rest.now) }
        ensures kept { IfOk result (λ _. IsKeptOf self.new.table kept.new rest.now) }
    {
        if parts.is_empty() {
            return Ok(());
        }
        let mut left = parts.len() - 1;
        let mut before = self.lay_part(&parts[left], rest, kept)?;
        while left > 0 {
            left -= 1;
            let mut own = None;
            before = self.lay_part(&parts[left], &before, &mut own)?;
        }
        Ok(())
    }
}
