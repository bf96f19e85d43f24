//! The phrases of which the sections of players, variables, pieces and boards are lists.
ghost use Rattle.rbg_grammar.specs.Reading.{bounded_at, edge_at, name_at, row_at, vertex_at};
ghost use Rattle.rbg_grammar.specs.Tree.{SpeltBounded, SpeltEdge, SpeltName, SpeltVertex};
ghost use Rattle.rbg_grammar.specs.Views.{bounded_of, edge_of, name_of, names_of, vertex_of};
ghost use Rattle.rbg_macro.specs.declared.token.Symbol.TheVariants.{OpenBracket};
ghost use Rattle.rbg_macro.specs.Kinds.{is_name_kind, is_symbol};
ghost use Rattle.std.specs.Prelude.{◌≡◌, List};

use crate::error::{Expectation, Reading};
use crate::parser::Parser;
use crate::phrase::Phrase;
use rbg_grammar::{Bounded, Edge, Name, Vertex};
use rbg_macro::{Symbol, TokenKind};
use std::alloc::Global;

impl<'a> Phrase<'a> for Name<'a> {
    ghost Spelt = { SpeltName };

    ghost view = { name_of };

    ghost read = { name_at };

    ghost begins = { is_name_kind };

    fn read_from(parser: &mut Parser<'a>, _alloc: Global) -> Reading<Name<'a>> {
        parser.name()
    }

    fn begins_with(kind: TokenKind) -> bool
        ensures { result ≡ is_name_kind kind }
    {
        kind == TokenKind::Name
    }
}

impl<'a> Phrase<'a> for Bounded<'a> {
    ghost Spelt = { SpeltBounded };

    ghost view = { bounded_of };

    ghost read = { bounded_at };

    ghost begins = { is_name_kind };

    /// A player or a variable with its bound.
    #[tactic(auto, unfolding(rbg_grammar::specs::Reading::bounded_at, rbg_grammar::specs::Reading::within_at))]
    fn read_from(parser: &mut Parser<'a>, _alloc: Global) -> Reading<Bounded<'a>> {
        let name = parser.name()?;
        parser.symbol(Symbol::OpenParenthesis, Expectation::Opening)?;
        let bound = parser.number()?;
        parser.symbol(Symbol::CloseParenthesis, Expectation::Closing)?;
        Ok(Bounded { name, bound })
    }

    fn begins_with(kind: TokenKind) -> bool
        ensures { result ≡ is_name_kind kind }
    {
        kind == TokenKind::Name
    }
}

/// A row of a board.
impl<'a> Phrase<'a> for Vec<Name<'a>> {
    ghost Spelt = { List SpeltName };

    ghost view = { names_of };

    ghost read = { row_at };

    ghost begins = { is_symbol OpenBracket };

    #[tactic(auto, using(rbg_grammar::proofs::PhraseLaws::name_takes_some), unfolding(rbg_grammar::specs::Reading::row_at, rbg_grammar::specs::Reading::within_at))]
    fn read_from(parser: &mut Parser<'a>, alloc: Global) -> Reading<Vec<Name<'a>>> {
        parser.symbol(Symbol::OpenBracket, Expectation::Opening)?;
        let names = parser.listed(alloc)?;
        parser.symbol(Symbol::CloseBracket, Expectation::Closing)?;
        Ok(names)
    }

    fn begins_with(kind: TokenKind) -> bool
        ensures { result ≡ is_symbol OpenBracket kind }
    {
        kind == TokenKind::Symbol(Symbol::OpenBracket)
    }
}

impl<'a> Phrase<'a> for Edge<'a> {
    ghost Spelt = { SpeltEdge };

    ghost view = { edge_of };

    ghost read = { edge_at };

    ghost begins = { is_name_kind };

    /// An edge to a vertex.
    #[tactic(auto, unfolding(rbg_grammar::specs::Reading::edge_at, rbg_grammar::specs::Reading::after_at))]
    fn read_from(parser: &mut Parser<'a>, _alloc: Global) -> Reading<Edge<'a>> {
        let direction = parser.name()?;
        parser.symbol(Symbol::Colon, Expectation::Colon)?;
        let target = parser.name()?;
        Ok(Edge { direction, target })
    }

    fn begins_with(kind: TokenKind) -> bool
        ensures { result ≡ is_name_kind kind }
    {
        kind == TokenKind::Name
    }
}

impl<'a> Phrase<'a> for Vertex<'a> {
    ghost Spelt = { SpeltVertex };

    ghost view = { vertex_of };

    ghost read = { vertex_at };

    ghost begins = { is_name_kind };

    /// A vertex of a graph.
    #[tactic(auto, using(rbg_grammar::proofs::PhraseLaws::edge_takes_some), unfolding(rbg_grammar::specs::Reading::vertex_at, rbg_grammar::specs::Reading::within_at))]
    fn read_from(parser: &mut Parser<'a>, alloc: Global) -> Reading<Vertex<'a>> {
        let name = parser.name()?;
        parser.symbol(Symbol::OpenBracket, Expectation::Opening)?;
        let piece = parser.name()?;
        parser.symbol(Symbol::CloseBracket, Expectation::Closing)?;
        parser.symbol(Symbol::OpenBrace, Expectation::Opening)?;
        let edges = parser.listed(alloc)?;
        parser.symbol(Symbol::CloseBrace, Expectation::Closing)?;
        Ok(Vertex { name, piece, edges })
    }

    fn begins_with(kind: TokenKind) -> bool
        ensures { result ≡ is_name_kind kind }
    {
        kind == TokenKind::Name
    }
}
