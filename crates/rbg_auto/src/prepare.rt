//! The records of positions that an automaton lends, made once from its nodes.
ghost use Rattle.std.specs.Prelude.{◌≡◌, ◌≤◌, map, IfOk};
ghost use Rattle.rbg_auto.specs.internal.Prepared.{step_of_node};

use crate::lent_steps::Step;
use crate::span::Node;
use crate::steps::Glance;
use crate::table::Table;
use rbg_base::Memory;
use std::alloc::Global;

/// The record of a node. Its glance is `Unknown` if words may end.
fn step_of(node: Node) -> Step
    requires { node.next.start ≤ node.next.end }
    ensures { result ≡ step_of_node node }
{
    let glance = if node.may_end {
        Glance::Unknown
    } else {
        node.glance
    };
    Step {
        start: node.next.start,
        len: node.next.end - node.next.start,
        glance,
    }
}

/// The record of each node of the table.
pub(crate) fn prepare(alloc: Global, table: &Table) -> Result<Vec<Step>, Memory>
    ensures { IfOk result (λ steps. steps.items ≡ map step_of_node table.now.nodes.items) }
{
    let mut steps = Vec::with_capacity(alloc, table.nodes.len())?;
    for node in &table.nodes {
        steps.push(step_of(*node))?;
    }
    Ok(steps)
}
