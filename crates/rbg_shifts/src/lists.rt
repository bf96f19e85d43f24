//! What comes next at each place in the rules, as nodes: places with one list have one node.
ghost use Rattle.std.specs.Prelude.{◌≡◌, IfOk, length, slice_index_or};
ghost use Rattle.rbg_shifts.specs.internal.Interned.{AreListsOf, branches_at};

use crate::branches::{Branch, branches_of};
use crate::ground::Ground;
use crate::interner::{Interner, Node};
use rbg_auto::{Expr, Steps, at_or};
use rbg_base::{Memory, Position};
use rbg_rules::Game;
use std::alloc::Global;

/// The nodes of a game's rules, by place.
#[derive(Drop)]
pub(crate) struct Lists {
    pub interner: Interner,
    /// The node at the beginning of the rules.
    pub rules: usize,
    /// The node after each position, from 0 on.
    pub afters: Vec<usize>,
    /// The node at the beginning of what is inside each position.
    pub insides: Vec<usize>,
    /// The branches of all lists, one for each of the positions of the interner.
    pub branches: Vec<Branch>,
}

impl Lists {
    /// The node after a position.
    #[inline(always)]
    pub(crate) fn after(&self, position: Position) -> usize
        ensures { result ≡ slice_index_or self.now.afters.items position 0 }
    {
        at_or(&self.afters, position, 0)
    }

    /// The branches of a node.
    pub(crate) fn branches(&self, node: usize) -> &[Branch]
        requires { length self.now.branches.items ≡ length self.now.interner.positions.items }
        ensures { result.now ≡ branches_at self.now node }
    {
        let Node { start, end, .. } = self.interner.node(node);
        &self.branches[start..end]
    }
}

/// The nodes of a game's rules.
pub(crate) fn lists_of<S: Steps>(
    alloc: Global,
    game: &Game,
    steps: &S,
    ground: &Ground<'_>,
) -> Result<Lists, Memory>
    requires ground { ground.now ≡ game.now }
    requires steps { S.of_rules steps.now game.now.rules }
    ensures { IfOk result (AreListsOf game.now.rules) }
{
    let positions = game.positions();
    let mut interner = Interner::new(alloc);
    let rules = interner.keep(steps.first(Expr::Rules), steps.may_be_empty(Expr::Rules))?;
    let mut afters = Vec::with_capacity(alloc, positions + 1)?;
    let mut insides = Vec::with_capacity(alloc, positions + 1)?;
    // (most positions have nothing inside, so their node is that of the one before)
    let mut inside = rules;
    for index in 0..positions + 1 {
        let position = index as Position;
        let after = interner.keep(steps.next(position), steps.may_end(position))?;
        afters.push(after)?;
        let expr = Expr::Inside(position);
        inside = interner.keep_as(inside, steps.first(expr), steps.may_be_empty(expr))?;
        insides.push(inside)?;
    }
    let branches = branches_of(alloc, ground, &interner.positions, &afters)?;
    Ok(Lists {
        interner,
        rules,
        afters,
        insides,
        branches,
    })
}
