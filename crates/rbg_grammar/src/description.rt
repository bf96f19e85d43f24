//! What the sections of a description spell.
ghost use Rattle.rbg_grammar.specs.Formed.{IsWhole};
ghost use Rattle.rbg_grammar.specs.Views.{spelt};

use crate::names::{Name, Number};
use crate::rule::ParsedRule;

/// What the sections of a source spell, which it borrows.
///
/// It has a player and a piece, and no sequence, sum or product of fewer than two parts.
pub struct Description<'a> {
    pub(crate) players: Vec<Bounded<'a>>,
    pub(crate) variables: Vec<Bounded<'a>>,
    pub(crate) pieces: Vec<Name<'a>>,
    pub(crate) board: ParsedBoard<'a>,
    pub(crate) rules: ParsedRule<'a>,
    pub ghost whole: { IsWhole (spelt players variables pieces board rules) },
}

/// Written by hand: dropping a description is then one call in the proofs of its owners, not a step for each part.
impl Drop for Description<'_> {
    fn drop(self) {
        let Description {
            players: _,
            variables: _,
            pieces: _,
            board: _,
            rules: _,
        } = self;
    }
}

/// The parts of a description, to be taken one by one.
#[derive(Drop)]
pub struct DescriptionParts<'a> {
    pub players: Vec<Bounded<'a>>,
    pub variables: Vec<Bounded<'a>>,
    pub pieces: Vec<Name<'a>>,
    pub board: ParsedBoard<'a>,
    pub rules: ParsedRule<'a>,
}

impl<'a> Description<'a> {
    ghost use Rattle.std.specs.Prelude.{◌≡◌, map};
    ghost use Rattle.rbg_grammar.specs.Descriptions.{description_of, description_of_parts};
    ghost use Rattle.rbg_grammar.specs.Views.{board_of, bounded_of, name_of, rule_of};

    /// The description of these parts.
    pub fn new(parts: DescriptionParts<'a>) -> Self
        requires { IsWhole (description_of_parts parts) }
        ensures { description_of result ≡ description_of_parts parts.entry }
    {
        let DescriptionParts {
            players,
            variables,
            pieces,
            board,
            rules,
        } = parts;
        Description {
            players,
            variables,
            pieces,
            board,
            rules,
        }
    }

    /// The players, in order of the text.
    pub fn players(&self) -> &[Bounded<'a>]
        ensures { map bounded_of result.now ≡ (description_of self.now).players }
    {
        &self.players
    }

    /// The variables, in order of the text.
    pub fn variables(&self) -> &[Bounded<'a>]
        ensures { map bounded_of result.now ≡ (description_of self.now).variables }
    {
        &self.variables
    }

    /// The pieces, in order of the text.
    pub fn pieces(&self) -> &[Name<'a>]
        ensures { map name_of result.now ≡ (description_of self.now).pieces }
    {
        &self.pieces
    }

    /// The board by its generator.
    pub fn board(&self) -> &ParsedBoard<'a>
        ensures { board_of result.now ≡ (description_of self.now).board }
    {
        &self.board
    }

    /// The rules.
    pub fn rules(&self) -> &ParsedRule<'a>
        ensures { rule_of result.now ≡ (description_of self.now).rules }
    {
        &self.rules
    }

    /// Takes the description apart.
    pub fn into_parts(self) -> DescriptionParts<'a>
        ensures same { description_of_parts result ≡ description_of self.entry }
        ensures whole { IsWhole (description_of_parts result) }
    {
        let Description {
            players,
            variables,
            pieces,
            board,
            rules,
        } = self;
        DescriptionParts {
            players,
            variables,
            pieces,
            board,
            rules,
        }
    }
}

/// A player or a variable with the maximum of its value, as in `white(100)`.
#[derive(Drop)]
pub struct Bounded<'a> {
    pub name: Name<'a>,
    pub bound: Number,
}

/// The board by its generator.
pub enum ParsedBoard<'a> {
    /// Rows of pieces from top to bottom.
    Rectangle {
        directions: RectangleDirections<'a>,
        rows: Vec<Vec<Name<'a>>>,
    },
    /// Rows of pieces from top to bottom.
    Hexagon {
        directions: HexagonDirections<'a>,
        rows: Vec<Vec<Name<'a>>>,
    },
    Graph {
        vertices: Vec<Vertex<'a>>,
    },
}

/// Written by hand: dropping a board is then one call in the proofs of its owners, not a step for each part.
impl Drop for ParsedBoard<'_> {
    fn drop(self) {
        match self {
            ParsedBoard::Rectangle {
                directions: _,
                rows: _,
            }
            | ParsedBoard::Hexagon {
                directions: _,
                rows: _,
            }
            | ParsedBoard::Graph { vertices: _ } => {}
        }
    }
}

/// The names of the directions up, down, left and right.
#[derive(Drop)]
pub struct RectangleDirections<'a> {
    pub names: [Name<'a>; 4],
}

/// The names of the directions north-west, north-east, east, south-east, south-west and west.
#[derive(Drop)]
pub struct HexagonDirections<'a> {
    pub names: [Name<'a>; 6],
}

/// A vertex of a graph with its first piece, as in `a[e]{right: b}`.
#[derive(Drop)]
pub struct Vertex<'a> {
    pub name: Name<'a>,
    pub piece: Name<'a>,
    pub edges: Vec<Edge<'a>>,
}

/// An edge to the vertex of that name, as `right: b`.
#[derive(Drop)]
pub struct Edge<'a> {
    pub direction: Name<'a>,
    pub target: Name<'a>,
}
