//! A checked game: the names of its things with their numbers, its board, its rules and the table of its actions.
ghost use Rattle.std.specs.Prelude.{◌≡◌, ◌<◌, ◌≤◌, ◌-◌, IsTrue, ◌↔◌, length, slice_get, Some};
ghost use Rattle.rbg_rules.specs.Games.{IsGame};
ghost use Rattle.rbg_rules.specs.Table.{IsActionAt};
ghost use Rattle.rbg_rules.specs.Translation.{rules_of};
ghost use Rattle.rbg_rules.specs.Positions.{positions_of, IsPatternAt};

use crate::rule::{Action, Rules};
use rbg_base::{Direction, Piece, Player, Position, Variable};
use rbg_board::Board;
use std::marker::Model;

/// The parts of a game: names in order of their numbers.
#[derive(Drop)]
pub struct Parts {
    pub players: Vec<String>,
    pub pieces: Vec<String>,
    /// The players in order, and then the other variables.
    pub variables: Vec<String>,
    pub bounds: Vec<u32>,
    pub directions: Vec<String>,
    pub board: Board,
    pub rules: Rules,
}

/// A game that was checked: its rules use its own players, pieces, variables and directions, and their actions are
/// numbered.
pub struct Game {
    parts: Parts,
}

impl Model for Game {
    ghost use Rattle.rbg_rules.specs.State.{AbstractGame};

    ghost Value = { AbstractGame };

    ghost use Rattle.rbg_rules.specs.Codes.{coded_game};

    ghost coded = { coded_game };

    ghost use Rattle.rbg_rules.specs.Parts.{game_of_parts};

    ghost view = { λ g. game_of_parts g.parts };

    ghost use Rattle.rbg_rules.specs.Kept.{IsKept};

    ghost invariant = { λ g. IsKept g.parts };
}

/// Written by hand: dropping a game is then one call in the proofs of its owners, not a step for each part.
impl Drop for Game {
    fn drop(self) {
        let Game { parts: _ } = self;
    }
}

impl Game {
    ghost use Rattle.rbg_rules.specs.Parts.{game_of_parts};

    /// The game of parts that were checked.
    pub fn new(parts: Parts) -> Game
        requires lawful { IsGame (game_of_parts parts) }
        requires actions { length parts.rules.actions.items
            ≡ length (positions_of (rules_of parts.rules)) }
        ensures { result ≡ game_of_parts parts }
    {
        Game { parts }
    }

    /// How many players there are. They are numbered from 1 in order of text; the keeper is 0.
    pub fn players(&self) -> usize
        ensures count { result ≡ length self.now.players }
        ensures lawful { IsGame self.now }
    {
        self.parts.players.len()
    }

    /// The name of a player.
    pub fn player_name(&self, player: Player) -> &str
        requires from_one { 0 < player }
        requires there { player ≤ length self.now.players }
        ensures { slice_get self.now.players (player - 1) ≡ Some result.now }
    {
        self.parts.players[player as usize - 1].as_str()
    }

    /// How many pieces there are. They are numbered from 0 in order of text.
    pub fn pieces(&self) -> usize
        ensures count { result ≡ length self.now.pieces }
        ensures lawful { IsGame self.now }
    {
        self.parts.pieces.len()
    }

    /// The name of a piece.
    pub fn piece_name(&self, piece: Piece) -> &str
        requires { piece < length self.now.pieces }
        ensures { slice_get self.now.pieces piece ≡ Some result.now }
    {
        self.parts.pieces[piece as usize].as_str()
    }

    /// How many variables there are, numbered from 0: the players' scores in order, and then the others.
    pub fn variables(&self) -> usize
        ensures count { result ≡ length self.now.variables }
        ensures lawful { IsGame self.now }
    {
        self.parts.variables.len()
    }

    /// The name of a variable.
    pub fn variable_name(&self, variable: Variable) -> &str
        requires { variable < length self.now.variables }
        ensures { slice_get self.now.variables variable ≡ Some result.now }
    {
        self.parts.variables[variable as usize].as_str()
    }

    /// The maximum value of a variable.
    pub fn bound(&self, variable: Variable) -> u32
        requires { variable < length self.now.variables }
        ensures { slice_get self.now.bounds variable ≡ Some result }
    {
        self.parts.bounds[variable as usize]
    }

    /// How many directions there are, numbered from 0.
    pub fn directions(&self) -> usize
        ensures count { result ≡ length self.now.directions }
        ensures lawful { IsGame self.now }
    {
        self.parts.directions.len()
    }

    /// The name of a direction.
    pub fn direction_name(&self, direction: Direction) -> &str
        requires { direction < length self.now.directions }
        ensures { slice_get self.now.directions direction ≡ Some result.now }
    {
        self.parts.directions[direction as usize].as_str()
    }

    pub fn board(&self) -> &Board
        ensures board { result.now ≡ self.now.board }
        ensures lawful { IsGame self.now }
    {
        &self.parts.board
    }

    /// For proofs alone: the game is an accepted one. It does nothing.
    #[inline(always)]
    pub fn is_accepted(&self)
        ensures { IsGame self.now }
    {
        let _positions = self.positions();
    }

    /// How many positions there are. They are numbered from 1.
    pub fn positions(&self) -> usize
        ensures count { result ≡ length (positions_of self.now.rules) }
        ensures lawful { IsGame self.now }
    {
        self.parts.rules.actions.len()
    }

    /// The action at a position.
    pub fn action(&self, position: Position) -> &Action
        requires from_one { 0 < position }
        requires there { position ≤ length (positions_of self.now.rules) }
        ensures { IsActionAt self.now.rules position result.now }
    {
        &self.parts.rules.actions[position as usize - 1]
    }

    /// Whether a pattern is at a position.
    pub fn is_pattern(&self, position: Position) -> bool
        requires from_one { 0 < position }
        requires there { position ≤ length (positions_of self.now.rules) }
        ensures { IsTrue result ↔ IsPatternAt self.now.rules position }
    {
        self.parts.rules.actions[position as usize - 1].is_pattern()
    }

    /// The rules: their tree and the actions by position.
    pub fn rules(&self) -> &Rules
        ensures rules { rules_of result.now ≡ self.now.rules }
        ensures lawful { IsGame self.now }
    {
        &self.parts.rules
    }
}
