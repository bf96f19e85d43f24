//! The readers of boards.
ghost use Rattle.rbg_syntax.specs.internal.Generators.{contents_at};
ghost use Rattle.rbg_syntax.specs.internal.Giving.{Gives};
ghost use Rattle.rbg_grammar.specs.Reading.{board_at, direction_at, generated_at, graph_at, hexagon_at, rectangle_at};
ghost use Rattle.rbg_grammar.specs.Views.{board_of, name_of};

use crate::error::{Expectation, Reading};
use crate::parser::Parser;
use rbg_grammar::{HexagonDirections, Name, ParsedBoard, RectangleDirections};
use rbg_macro::Symbol;
use std::alloc::Global;

/// What makes a board of its contents.
#[derive(Clone, Copy)]
pub(crate) enum Generator {
    Rectangle,
    Hexagon,
    Graph,
}

impl<'a> Parser<'a> {
    /// A board, by the name of its generator.
    #[tactic(auto, unfolding(rbg_grammar::specs::Reading::board_at))]
    pub(crate) fn board(&mut self, alloc: Global) -> Reading<ParsedBoard<'a>>
        ensures { Gives (λ b. (board_of b, self.new)) result (board_at self.old) }
    {
        if self.next_is_word(b"rectangle") {
            return self.generated(alloc, Generator::Rectangle, b"rectangle");
        }
        if self.next_is_word(b"hexagon") {
            return self.generated(alloc, Generator::Hexagon, b"hexagon");
        }
        self.generated(alloc, Generator::Graph, b"graph")
    }

    /// The board that a generator makes of what is in the parentheses after its name.
    #[tactic(auto, unfolding(rbg_grammar::specs::Reading::generated_at, rbg_grammar::specs::Reading::within_at))]
    fn generated(
        &mut self,
        alloc: Global,
        generator: Generator,
        name: &[u8],
    ) -> Reading<ParsedBoard<'a>>
        ensures { Gives (λ b. (board_of b, self.new)) result
            (generated_at name.now (contents_at generator) self.old) }
    {
        self.word(name, Expectation::Generator)?;
        self.symbol(Symbol::OpenParenthesis, Expectation::Opening)?;
        let board = self.contents(alloc, generator)?;
        self.symbol(Symbol::CloseParenthesis, Expectation::Closing)?;
        Ok(board)
    }

    fn contents(&mut self, alloc: Global, generator: Generator) -> Reading<ParsedBoard<'a>>
        ensures { Gives (λ b. (board_of b, self.new)) result (contents_at generator self.old) }
    {
        match generator {
            Generator::Rectangle => self.rectangle(alloc),
            Generator::Hexagon => self.hexagon(alloc),
            Generator::Graph => self.graph(alloc),
        }
    }

    #[tactic(auto, using(rbg_grammar::proofs::PhraseLaws::row_takes_some), unfolding(rbg_grammar::specs::Reading::rectangle_at, rbg_grammar::specs::Reading::rows_at))]
    fn rectangle(&mut self, alloc: Global) -> Reading<ParsedBoard<'a>>
        ensures { Gives (λ b. (board_of b, self.new)) result (rectangle_at self.old) }
    {
        let names = [
            self.direction()?,
            self.direction()?,
            self.direction()?,
            self.direction()?,
        ];
        Ok(ParsedBoard::Rectangle {
            directions: RectangleDirections { names },
            rows: self.repeated(alloc)?,
        })
    }

    #[tactic(auto, using(rbg_grammar::proofs::PhraseLaws::row_takes_some), unfolding(rbg_grammar::specs::Reading::hexagon_at, rbg_grammar::specs::Reading::rows_at))]
    fn hexagon(&mut self, alloc: Global) -> Reading<ParsedBoard<'a>>
        ensures { Gives (λ b. (board_of b, self.new)) result (hexagon_at self.old) }
    {
        let names = [
            self.direction()?,
            self.direction()?,
            self.direction()?,
            self.direction()?,
            self.direction()?,
            self.direction()?,
        ];
        Ok(ParsedBoard::Hexagon {
            directions: HexagonDirections { names },
            rows: self.repeated(alloc)?,
        })
    }

    #[tactic(auto, using(rbg_grammar::proofs::PhraseLaws::vertex_takes_some), unfolding(rbg_grammar::specs::Reading::graph_at))]
    fn graph(&mut self, alloc: Global) -> Reading<ParsedBoard<'a>>
        ensures { Gives (λ b. (board_of b, self.new)) result (graph_at self.old) }
    {
        let vertices = self.repeated(alloc)?;
        Ok(ParsedBoard::Graph { vertices })
    }

    /// The name of a direction, with its comma.
    #[tactic(auto, unfolding(rbg_grammar::specs::Reading::direction_at, rbg_grammar::specs::Reading::with_comma_at))]
    fn direction(&mut self) -> Reading<Name<'a>>
        ensures { Gives (λ n. (name_of n, self.new)) result (direction_at self.old) }
    {
        let name = self.name()?;
        self.symbol(Symbol::Comma, Expectation::Comma)?;
        Ok(name)
    }
}
