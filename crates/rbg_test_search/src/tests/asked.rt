//! A game of which something is asked, beside its slow form.
ghost use Rattle.std.specs.Prelude.{◌≡◌, IfSome};
ghost use Rattle.rbg_flat.specs.Paths.{ArePathsOf};

use crate::tests::meaning::Rules;
use rbg_auto::Steps;
use rbg_flat::Paths;
use rbg_moves::PlayedGame;
use rbg_rules::Game;
use rbg_search::{Budget, Buffers, GameSteps, Search};
use std::alloc::Global;

/// A game that was loaded, and the same game as the slow answers see it.
#[derive(Drop)]
pub(crate) struct Asked<'a, S: Steps> {
    pub alloc: Global,
    pub game: &'a Game,
    pub steps: &'a S,
    /// The leaps of the game, where the questions go by them.
    pub paths: Option<&'a Paths>,
    /// The game, made ready for play.
    pub played: &'a PlayedGame,
    pub rules: Rules<'a>,
}

impl<'a, S: Steps> Asked<'a, S> {
    /// A search of the game.
    pub(crate) fn search<'b>(&'b self, budget: Budget, buffers: &'b mut Buffers) -> Search<'b, S>
        requires steps { S.of_rules self.now.steps.now self.now.game.now.rules }
        requires paths { IfSome self.now.paths (λ told. ArePathsOf self.now.game.now told.now) }
        ensures { result.game ≡ self.now.game.now }
    {
        self.game.is_accepted();
        let rules = GameSteps::new(self.game, self.steps, self.paths);
        Search::by_rules(self.alloc, rules, budget, buffers)
    }
}
