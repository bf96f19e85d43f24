//! A game, and what each step of a shift looks up in it.
ghost use Rattle.std.specs.Prelude.{◌≡◌, ℕ, ◌<◌, ◌≤◌, ◌↔◌, length, Some, IfSome, IfNone, IsTrue};
ghost use Rattle.rbg_rules.specs.Meaning.{shift, HasAction, IsGame};
ghost use Rattle.rbg_shifts.specs.Leaps.{IsShiftAt};
ghost use Rattle.rbg_shifts.specs.internal.Steps.{AreDirections, Comes};

use rbg_auto::at_or;
use rbg_base::{Direction, Position, Vertex};
use rbg_board::LentBoard;
use rbg_rules::Game;
use std::marker::Model;

/// A game, with its board and the directions of its shifts as slices.
#[derive(Drop)]
pub(crate) struct Ground<'a> {
    game: &'a Game,
    board: LentBoard<'a>,
    directions: &'a [Option<Direction>],
}

impl<'a> Model for Ground<'a> {
    ghost use Rattle.rbg_rules.specs.Meaning.{AbstractGame};

    ghost Value = { AbstractGame };

    ghost use Rattle.rbg_rules.specs.Codes.{coded_game};

    ghost coded = { coded_game };

    ghost view = { λ g. g.game.now };

    ghost use Rattle.std.specs.Prelude.{◌≡◌};
    ghost use Rattle.rbg_rules.specs.Meaning.{IsGame};
    ghost use Rattle.rbg_shifts.specs.internal.Steps.{AreDirections};

    ghost invariant = { λ g. (g.board ≡ g.game.now.board) × AreDirections g.game.now.rules g.directions.now
        × IsGame g.game.now };
}

impl<'a> Ground<'a> {
    /// The ground of a game, whose shifts have these directions.
    pub(crate) fn new(game: &'a Game, directions: &'a [Option<Direction>]) -> Ground<'a>
        requires directions { AreDirections game.now.rules directions.now }
        requires lawful { IsGame game.now }
        ensures { result ≡ game.now }
    {
        Ground {
            game,
            board: game.board().lend(),
            directions,
        }
    }

    /// How many vertices the board has.
    pub(crate) fn vertices(&self) -> usize
        ensures count { result ≡ length self.now.board.first }
        ensures few { result ≤ 4096 }
    {
        self.game.board().len()
    }

    /// Whether a shift is at a position.
    #[inline(always)]
    pub(crate) fn is_shift(&self, position: Position) -> bool
        ensures { IsTrue result ↔ IsShiftAt self.now.rules position }
    {
        at_or(self.directions, position, None).is_some()
    }

    /// The direction of the shift at a position, if one is there.
    #[inline(always)]
    pub(crate) fn direction(&self, position: Position) -> Option<Direction>
        ensures some { IfSome result (λ d. HasAction self.now.rules position (shift d)) }
        ensures none { IfNone result (¬ IsShiftAt self.now.rules position) }
    {
        at_or(self.directions, position, None)
    }

    /// The vertex to which a shift in a direction leads from a vertex. Returns None if there is no edge.
    #[inline(always)]
    pub(crate) fn step(&self, vertex: Vertex, direction: Direction) -> Option<Vertex>
        requires { vertex < length self.now.board.first }
        ensures comes { (p u : ℕ) → HasAction self.now.rules p (shift direction) → (result ≡ Some u) ↔ Comes self.now vertex p u }
        ensures is_vertex { IfSome result (λ to. to < length self.now.board.first) }
    {
        self.board.step(vertex, direction)
    }

    /// The vertex to which the action at a position leads from a vertex: the end of a shift's edge, or the same vertex
    /// for any other action. Returns None if a shift has no edge.
    #[inline(always)]
    pub(crate) fn to(&self, vertex: Vertex, position: Position) -> Option<Vertex>
        requires { vertex < length self.now.board.first }
        ensures comes { (u : ℕ) → (result ≡ Some u) ↔ Comes self.now vertex position u }
        ensures is_vertex { IfSome result (λ to. to < length self.now.board.first) }
    {
        match at_or(self.directions, position, None) {
            Some(direction) => self.board.step(vertex, direction),
            None => Some(vertex),
        }
    }
}
