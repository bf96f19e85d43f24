//! What comes next at each place in the rules, copied from the steps of the rules once.
ghost use Rattle.std.specs.Prelude.{◌≡◌, ◌≤◌, ℕ, ◌+◌, ◌^◌, length, slice_get, Some, IfOk};
ghost use Rattle.rbg_rules.specs.Meaning.{beginning, after, inside, positions_of, IsStart, AbstractGame};
ghost use Rattle.rbg_auto.specs.Steps.{level_of};
ghost use Rattle.rbg_shifts.specs.Origin.{start_of};
ghost use Rattle.rbg_flat.specs.Followers.{AreFollowers, AreStepsOf};

use rbg_auto::{Expr, Steps};
use rbg_base::{Memory, Position};
use rbg_rules::Game;
use rbg_shifts::Origin;
use std::alloc::Global;

/// What comes next at a place in the rules.
#[derive(Drop)]
pub struct Followers {
    pub(crate) positions: Vec<Position>,
    /// Whether a word may end there.
    pub(crate) ends: bool,
}

/// What comes next at each place in the rules of a game.
#[derive(Drop)]
pub struct StepTable {
    pub(crate) rules: Followers,
    /// At the beginning of what is inside each position, from 0 on.
    pub(crate) insides: Vec<Followers>,
    /// After each position, from 0 on.
    pub(crate) afters: Vec<Followers>,
}

impl StepTable {
    /// What comes next at each place in the rules of a game, by their steps.
    pub(crate) fn new<S: Steps>(alloc: Global, game: &Game, steps: &S) -> Result<StepTable, Memory>
        requires { S.of_rules steps.now game.now.rules }
        ensures { IfOk result (AreStepsOf game.now) }
    {
        let count = game.positions() + 1;
        Ok(StepTable {
            rules: followers_at(alloc, game, steps, Origin::Begin(Expr::Rules))?,
            insides: all_inside(alloc, game, steps, count)?,
            afters: all_after(alloc, game, steps, count)?,
        })
    }

    /// What comes next at a place in the rules.
    #[inline(always)]
    pub(crate) fn at(&self, game: &Game, origin: Origin) -> &Followers
        requires steps { AreStepsOf game.now self.now }
        requires stands { IsStart game.now.rules (start_of origin) }
        ensures { AreFollowers game.now (start_of origin) result.now }
    {
        // The game is lawful.
        game.is_accepted();
        match origin {
            Origin::After(position) => &self.afters[position as usize],
            Origin::Begin(expr) => self.begin(game, expr),
        }
    }

    /// What comes next at the beginning of an expression.
    #[inline(always)]
    fn begin(&self, game: &Game, expr: Expr) -> &Followers
        requires steps { AreStepsOf game.now self.now }
        requires stands { IsStart game.now.rules (beginning (level_of expr)) }
        ensures { AreFollowers game.now (beginning (level_of expr)) result.now }
    {
        // The game is lawful.
        game.is_accepted();
        match expr {
            Expr::Rules => &self.rules,
            Expr::Inside(position) => &self.insides[position as usize],
        }
    }
}

/// What comes next at the beginning of what is inside each of so many positions, from 0 on.
fn all_inside<S: Steps>(
    alloc: Global,
    game: &Game,
    steps: &S,
    count: usize,
) -> Result<Vec<Followers>, Memory>
    requires steps { S.of_rules steps.now game.now.rules }
    requires small { count ≤ 2 ^ 32 }
    ensures all { IfOk result (λ made. length made.items ≡ count) }
    ensures told { IfOk result (λ made. (p : ℕ) (told : Followers)
        → slice_get made.items p ≡ Some told
        → AreFollowers game.now (beginning (inside p)) told) }
{
    let mut made = Vec::with_capacity(alloc, count)?;
    for index in 0..count {
        let origin = Origin::Begin(Expr::Inside(index as Position));
        made.push(followers_at(alloc, game, steps, origin)?)?;
    }
    Ok(made)
}

/// What comes next after each of so many positions, from 0 on.
fn all_after<S: Steps>(
    alloc: Global,
    game: &Game,
    steps: &S,
    count: usize,
) -> Result<Vec<Followers>, Memory>
    requires steps { S.of_rules steps.now game.now.rules }
    requires small { count ≤ 2 ^ 32 }
    ensures all { IfOk result (λ made. length made.items ≡ count) }
    ensures told { IfOk result (λ made. (p : ℕ) (told : Followers)
        → slice_get made.items p ≡ Some told → AreFollowers game.now (after p) told) }
{
    let mut made = Vec::with_capacity(alloc, count)?;
    for index in 0..count {
        let origin = Origin::After(index as Position);
        made.push(followers_at(alloc, game, steps, origin)?)?;
    }
    Ok(made)
}

/// What comes next at a place in the rules, by their steps.
fn followers_at<S: Steps>(
    alloc: Global,
    game: &Game,
    steps: &S,
    origin: Origin,
) -> Result<Followers, Memory>
    requires { S.of_rules steps.now game.now.rules }
    ensures { IfOk result (AreFollowers game.now (start_of origin)) }
{
    match origin {
        Origin::Begin(expr) => copied(alloc, steps.first(expr), steps.may_be_empty(expr)),
        Origin::After(position) => copied(alloc, steps.next(position), steps.may_end(position)),
    }
}

/// A copy of these positions, and whether a word may end there.
fn copied(alloc: Global, next: &[Position], ends: bool) -> Result<Followers, Memory>
    ensures { IfOk result (λ made. (made.positions.items ≡ next.now) × (made.ends ≡ ends)) }
{
    let mut positions = Vec::with_capacity(alloc, next.len())?;
    positions.extend_from_slice(next)?;
    Ok(Followers { positions, ends })
}
