//! A game and the steps of its rules.
ghost use Rattle.std.specs.Prelude.{◌≡◌, ◌≤◌, [], All, IfOk, IfSome, IsTrue, ◌↔◌};
ghost use Rattle.rbg_rules.specs.Meaning.{IsGame, Start, Ends};
ghost use Rattle.rbg_search.specs.Nesting.{NestsFrom};
ghost use Rattle.rbg_auto.specs.Steps.{AreAllThatFollow, IsGlance};
ghost use Rattle.rbg_flat.specs.Paths.{ArePathsOf};
ghost use Rattle.rbg_search.specs.Start.{start_of, IsPositionOf};

use rbg_auto::{Glance, Steps};
use rbg_base::{Memory, Position};
use rbg_flat::Paths;
use rbg_rules::Game;
use rbg_rules::limits::MAX_NESTED_PATTERNS;
use rbg_shifts::Origin;
use std::alloc::Global;
use std::marker::Model;

/// A game and the steps of its rules.
#[derive(Drop)]
pub struct GameSteps<'a, S: Steps> {
    game: &'a Game,
    steps: &'a S,
    /// The leaps of the game, where they are told.
    paths: Option<&'a Paths>,
}

impl<'a, S: Steps> Model for GameSteps<'a, S> {
    ghost use Rattle.rbg_rules.specs.Meaning.{AbstractGame};

    ghost Value = { AbstractGame };

    ghost use Rattle.rbg_rules.specs.Codes.{coded_game};

    ghost coded = { coded_game };

    ghost view = { λ g. g.game.now };

    ghost use Rattle.std.specs.Prelude.{IfSome};
    ghost use Rattle.rbg_rules.specs.Meaning.{IsGame};
    ghost use Rattle.rbg_flat.specs.Paths.{ArePathsOf};

    ghost invariant = { λ g. S.of_rules g.steps.now g.game.now.rules × IsGame g.game.now
        × IfSome g.paths (λ paths. ArePathsOf g.game.now paths.now) };
}

impl<'a, S: Steps> GameSteps<'a, S> {
    /// The steps are those of the game's rules, and the paths those of the game.
    #[inline(always)]
    pub fn new(game: &'a Game, steps: &'a S, paths: Option<&'a Paths>) -> GameSteps<'a, S>
        requires steps { S.of_rules steps.now game.now.rules }
        requires lawful { IsGame game.now }
        requires paths { IfSome paths (λ told. ArePathsOf game.now told.now) }
        ensures { result ≡ game.now }
    {
        GameSteps { game, steps, paths }
    }

    /// The leaps of the game, where they are told.
    #[inline(always)]
    pub fn paths(&self) -> Option<&'a Paths>
        ensures { IfSome result (λ told. ArePathsOf self.now told.now) }
    {
        self.paths
    }

    /// Paths with no leaps, made anew.
    pub(crate) fn stepwise_paths(&self, alloc: Global) -> Result<Paths, Memory>
        ensures { IfOk result (ArePathsOf self.now) }
    {
        Paths::stepwise(alloc, self.game, self.steps)
    }

    #[inline(always)]
    pub fn game(&self) -> &'a Game
        ensures game { result.now ≡ self.now }
        ensures lawful { IsGame self.now }
    {
        self.game
    }

    /// The most patterns that stand one inside the other.
    #[inline(always)]
    pub fn nesting(&self) -> u8
        ensures nests { (f : Start) → NestsFrom self.now.rules result f }
        ensures small { result ≤ 8 }
    {
        // The limit is that of every game.
        let _game = self.game;
        MAX_NESTED_PATTERNS as u8
    }

    /// The positions that may come next.
    #[inline(always)]
    pub fn following(&self, origin: Origin) -> &'a [Position]
        ensures follow { AreAllThatFollow self.now.rules (start_of origin) result.now }
        ensures within { All (IsPositionOf self.now.rules) result.now }
        ensures lawful { IsGame self.now }
    {
        match origin {
            Origin::Begin(expr) => self.steps.first(expr),
            Origin::After(position) => self.steps.next(position),
        }
    }

    /// What is told at once of the action at a position.
    #[inline(always)]
    pub fn glance(&self, position: Position) -> Glance
        ensures { IsGlance self.now.rules position result }
    {
        self.steps.glance(position)
    }

    /// Whether a word may end where one stands.
    #[inline(always)]
    pub fn may_end(&self, origin: Origin) -> bool
        ensures { IsTrue result ↔ Ends self.now.rules (start_of origin) [] }
    {
        match origin {
            Origin::Begin(expr) => self.steps.may_be_empty(expr),
            Origin::After(position) => self.steps.may_end(position),
        }
    }
}
