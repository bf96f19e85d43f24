//! Points in the rules at which the keeper does what a player does.

use rbg_auto::{Compact, Expr, Steps};
use rbg_base::{Memory, Position};
use rbg_rules::{Action, Game};
use std::alloc::Global;

/// The maximum number of steps of all searches together.
const MOST_STEPS: usize = 2_000_000;

/// Looks for what the keeper reaches. What no player reaches is done by the keeper on purpose.
#[derive(Drop)]
pub(crate) struct KeeperSearch<'a> {
    alloc: Global,
    game: &'a Game,
    steps: &'a Compact,
    /// Which positions are reached from a player's switch without another one.
    is_players: Vec<bool>,
    /// How many more steps may be taken.
    left: usize,
}

/// What is known of a search: the positions that were met, and those from which it continues.
#[derive(Drop)]
struct Reached {
    is_met: Vec<bool>,
    pending: Vec<Position>,
}

impl<'a> KeeperSearch<'a> {
    pub fn new(
        alloc: Global,
        game: &'a Game,
        steps: &'a Compact,
    ) -> Result<KeeperSearch<'a>, Memory> {
        let mut search = KeeperSearch {
            alloc,
            game,
            steps,
            is_players: Vec::new(alloc),
            left: MOST_STEPS,
        };
        search.is_players = search.reached_by_players()?;
        Ok(search)
    }

    /// Which positions are reached from a player's switch without another one.
    fn reached_by_players(&mut self) -> Result<Vec<bool>, Memory> {
        let mut reached = self.nothing_reached()?;
        for index in 0..self.game.positions() {
            let position = index as Position + 1;
            if self.is_players_switch(position) {
                reached.pending.push(position)?;
            }
        }
        // (no position is known to be a player's yet, so no off ends the search)
        self.follow(&mut reached)?;
        Ok(reached.is_met)
    }

    /// The position of a player's off that is reached from the beginning of the rules without a switch.
    pub fn first_off(&mut self) -> Result<Option<Position>, Memory> {
        let mut reached = self.nothing_reached()?;
        let steps = self.steps;
        let off = self.meet_all(steps.first(Expr::Rules), &mut reached)?;
        if off.is_some() {
            return Ok(off);
        }
        self.follow(&mut reached)
    }

    /// The position of a player's off that is reached from a switch without another one.
    pub fn off_after(&mut self, switch: Position) -> Result<Option<Position>, Memory> {
        let mut reached = self.nothing_reached()?;
        reached.pending.push(switch)?;
        self.follow(&mut reached)
    }

    /// A search before its first step.
    fn nothing_reached(&self) -> Result<Reached, Memory> {
        let mut reached = Reached {
            is_met: Vec::new(self.alloc),
            pending: Vec::new(self.alloc),
        };
        for _ in 0..=self.game.positions() {
            reached.is_met.push(false)?;
        }
        Ok(reached)
    }

    /// Follows the rules from the pending positions on. Returns the position of a player's off, if it comes to one.
    fn follow(&mut self, reached: &mut Reached) -> Result<Option<Position>, Memory> {
        for _ in 0..=self.game.positions() {
            let Some(position) = reached.pending.pop() else {
                return Ok(None);
            };
            let steps = self.steps;
            let off = self.meet_all(steps.next(position), reached)?;
            if off.is_some() || self.left == 0 {
                return Ok(off);
            }
        }
        Ok(None)
    }

    /// Goes to positions. Returns one of a player's off, if it comes to one.
    fn meet_all(
        &mut self,
        positions: &[Position],
        reached: &mut Reached,
    ) -> Result<Option<Position>, Memory> {
        for next in positions {
            self.left = self.left.saturating_sub(1);
            if meet(&mut reached.is_met, *next) {
                if self.is_players_off(*next) {
                    return Ok(Some(*next));
                }
                if self.goes_on(*next) {
                    reached.pending.push(*next)?;
                }
            }
        }
        Ok(None)
    }

    /// The action at a position.
    fn action(&self, position: Position) -> Option<&'a Action> {
        if 0 < position && (position as usize) <= self.game.positions() {
            Some(self.game.action(position))
        } else {
            None
        }
    }

    fn is_players_off(&self, position: Position) -> bool {
        matches!(self.is_players.get(position as usize), Some(true))
            && matches!(self.action(position), Some(Action::Off { .. }))
    }

    fn is_players_switch(&self, position: Position) -> bool {
        matches!(self.action(position), Some(Action::Switch { player }) if *player != 0)
    }

    /// Whether the keeper's move can continue after a position: its action is no switch and no `{}`.
    fn goes_on(&self, position: Position) -> bool {
        match self.action(position) {
            Some(Action::Switch { .. }) | None => false,
            Some(Action::On { pieces }) => !pieces.is_empty(),
            Some(_) => true,
        }
    }
}

/// Marks a position as met. Returns whether it wasn't met before.
fn meet(is_met: &mut Vec<bool>, position: Position) -> bool {
    match is_met.get_mut(position as usize) {
        Some(met) => !std::mem::replace(met, true),
        None => false,
    }
}
