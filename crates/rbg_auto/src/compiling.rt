//! The plain automaton of a game.
ghost use Rattle.std.specs.Prelude.{◌<◌, ◌^◌, IfOk};
ghost use Rattle.rbg_auto.specs.OfTree.{HoldsOfTree};
ghost use Rattle.rbg_auto.specs.internal.PlainNodes.{SetsPlainNode, FillsTree, FillsSequence, FillsSum, AreBlank};

use crate::plain::{Automaton, PlainNode};
use crate::rest::{Rest, again, before};
use crate::steps::Steps;
use crate::tree::push_first;
use rbg_base::{Memory, Position};
use rbg_rules::{Game, Rule};
use std::alloc::Global;

/// That many nodes with nothing laid.
fn blank(alloc: Global, count: usize) -> Result<Vec<PlainNode>, Memory>
    ensures { IfOk result (λ nodes. AreBlank nodes.items count) }
{
    let mut nodes = Vec::new(alloc);
    for _ in 0..count {
        nodes.push(PlainNode {
            next: Vec::new(alloc),
            may_end: false,
            first: Vec::new(alloc),
            may_be_empty: false,
        })?;
    }
    Ok(nodes)
}

/// Sets what is laid at a position, if there is a node for it.
fn set(nodes: &mut [PlainNode], position: Position, node: PlainNode)
    ensures { SetsPlainNode nodes.old nodes.new position node }
{
    let index = position as usize;
    if index < nodes.len() {
        nodes[index] = node;
    }
}

/// Lays a part of the rules, after which the rest comes.
#[cycle(filling)]
fn fill(alloc: Global, nodes: &mut [PlainNode], rule: &Rule, rest: &Rest) -> Result<(), Memory>
    ensures { IfOk result (λ _.
        FillsTree nodes.old nodes.new rule.now rest.now.positions.items rest.now.may_end) }
{
    match rule {
        Rule::Act(position) => {
            let node = PlainNode {
                next: rest.positions.clone()?,
                may_end: rest.may_end,
                first: Vec::new(alloc),
                may_be_empty: false,
            };
            set(nodes, *position, node);
            Ok(())
        }
        Rule::Pattern { position, inside } => {
            let nothing = Rest {
                positions: Vec::new(alloc),
                may_end: true,
            };
            fill(alloc, nodes, inside, &nothing)?;
            let mut first = Vec::new(alloc);
            let may_be_empty = push_first(inside, &mut first)?;
            let node = PlainNode {
                next: rest.positions.clone()?,
                may_end: rest.may_end,
                first,
                may_be_empty,
            };
            set(nodes, *position, node);
            Ok(())
        }
        Rule::Then(parts) => fill_sequence(alloc, nodes, parts.as_slice(), rest),
        Rule::Or(parts) => fill_sum(alloc, nodes, parts.as_slice(), rest),
        Rule::Star(part) => fill(alloc, nodes, part, &again(alloc, part, rest)?),
    }
}

/// Lays the parts of a sequence from the last to the first.
#[cycle(filling)]
fn fill_sequence(
    alloc: Global,
    nodes: &mut [PlainNode],
    parts: &[Rule],
    rest: &Rest,
) -> Result<(), Memory>
    ensures { IfOk result (λ _.
        FillsSequence nodes.old nodes.new parts.now rest.now.positions.items rest.now.may_end) }
{
    let mut later = Rest {
        positions: rest.positions.clone()?,
        may_end: rest.may_end,
    };
    let mut left = parts.len();
    while left > 0 {
        left -= 1;
        let part = &parts[left];
        fill(alloc, nodes, part, &later)?;
        later = before(alloc, part, &later)?;
    }
    Ok(())
}

/// Lays the parts of a sum, all with the same rest.
#[cycle(filling)]
fn fill_sum(
    alloc: Global,
    nodes: &mut [PlainNode],
    parts: &[Rule],
    rest: &Rest,
) -> Result<(), Memory>
    ensures { IfOk result (λ _.
        FillsSum nodes.old nodes.new parts.now rest.now.positions.items rest.now.may_end) }
{
    for part in parts {
        fill(alloc, nodes, part, rest)?;
    }
    Ok(())
}

/// The plain automaton of a tree with that many positions, whatever actions are at them, if the positions are numbered
/// and no sum is empty.
pub fn compile_tree(alloc: Global, tree: &Rule, positions: usize) -> Result<Automaton, Memory>
    requires { positions < 2 ^ 32 }
    ensures { IfOk result (λ automaton.
        HoldsOfTree (⟦<Automaton as Steps>⟧.of_rules automaton) tree.now positions) }
{
    let mut nodes = blank(alloc, positions + 1)?;
    let nothing = Rest {
        positions: Vec::new(alloc),
        may_end: true,
    };
    fill(alloc, nodes.as_mut_slice(), tree, &nothing)?;
    let mut first = Vec::new(alloc);
    let may_be_empty = push_first(tree, &mut first)?;
    Ok(Automaton {
        nodes,
        first,
        may_be_empty,
    })
}

/// The plain automaton of the game. It takes longer to make than that of `compact`, and more memory. Its answers are
/// the same, except that it knows nothing of the actions.
pub fn compile(alloc: Global, game: &Game) -> Result<Automaton, Memory>
    ensures { IfOk result (λ automaton. ⟦<Automaton as Steps>⟧.of_rules automaton game.now.rules) }
{
    compile_tree(alloc, &game.rules().tree, game.positions())
}
