//! The numbers of the things of a game.

/// A player, numbered from 1 in order of the text. The keeper is 0.
pub type Player = u16;

/// A piece, numbered from 0 in order of the text.
pub type Piece = u16;

/// A variable, numbered from 0: the players' scores in order, and then the other variables.
pub type Variable = u16;

/// A direction of the board, numbered from 0.
pub type Direction = u16;

/// A vertex of the board, numbered from 0.
pub type Vertex = u32;

/// The position of an action in the rules, numbered from 1 in order of the text.
pub type Position = u32;
