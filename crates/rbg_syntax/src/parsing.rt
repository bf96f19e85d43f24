//! The reader of a whole description.
ghost use Rattle.std.specs.Prelude.{◌≡◌, slice_get, IfErr, IfOk};
ghost use Rattle.rbg_macro.specs.declared.source.SectionKind.TheVariants.{Variables};
ghost use Rattle.rbg_macro.specs.declared.token.Symbol.TheVariants.{Comma};
ghost use Rattle.rbg_macro.specs.Kinds.{is_name_kind};
ghost use Rattle.rbg_grammar.specs.Descriptions.{description_of, description_of_parts};
ghost use Rattle.rbg_syntax.specs.internal.Giving.{Gives, GivesAt, GivesWithin, placed, start_of};
ghost use Rattle.rbg_grammar.specs.Reading.{board_at, bounded_at, listed_at, name_at, separated_at, variables_at, whole_at};
ghost use Rattle.rbg_grammar.specs.RuleReading.{rules_at};
ghost use Rattle.rbg_syntax.specs.Faults.{IsMissing};
ghost use Rattle.rbg_grammar.specs.Sections.{sections_of};
ghost use Rattle.rbg_syntax.specs.Faults.{HasFault, IsAnswer};
ghost use Rattle.rbg_grammar.specs.Spells.{Spells, max_brackets};
ghost use Rattle.rbg_grammar.specs.Tree.{SpeltDescription};
ghost use Rattle.rbg_grammar.specs.Views.{board_of, bounded_list_of, names_of, rule_of};

use crate::error::{Expectation, Reading, SyntaxError};
use crate::parser::Parser;
use crate::sections::{find, refuse_twice};
use rbg_grammar::{Bounded, Description, DescriptionParts, Name, ParsedBoard, ParsedRule};
use rbg_macro::{Section, SectionKind, Source, Symbol};
use std::alloc::Global;

/// How many brackets may be open at once.
const MAX_BRACKETS: u8 = 128;

/// Reads the description that the sections of a source spell.
///
/// `SectionTwice` comes before `MissingSection`, and that before the others. The sections are read in the
/// order players, pieces, variables, board and rules, each from the left, and the first fault decides.
pub fn parse<'a>(alloc: Global, source: &'a Source<'_>) -> Result<Description<'a>, SyntaxError>
    // The result is what the sections spell.
    ensures found { IfOk result (λ d. Spells source.now (description_of d)) }
    ensures only { (d : SpeltDescription) → Spells source.now d → IsAnswer d result }

    // An error names a fault that the sections have.
    ensures fault { IfErr result (HasFault source.now) }
{
    let parts = read_parts(alloc, source)?;
    Ok(Description::new(parts))
}

/// The parts of the description, read section by section.
fn read_parts<'a>(
    alloc: Global,
    source: &'a Source<'_>,
) -> Result<DescriptionParts<'a>, SyntaxError>
    ensures found { IfOk result (λ p. Spells source.now (description_of_parts p)) }
    ensures fault { IfErr result (HasFault source.now) }
{
    refuse_twice(source)?;
    let players = needed(source, SectionKind::Players)?;
    let pieces = needed(source, SectionKind::Pieces)?;
    let board = needed(source, SectionKind::Board)?;
    let rules = needed(source, SectionKind::Rules)?;
    let players = placed(players.at(), read_players(alloc, players))?;
    let pieces = placed(pieces.at(), read_pieces(alloc, pieces))?;
    let variables = variables_of(alloc, source)?;
    let board = placed(board.at(), read_board(alloc, board))?;
    let rules = placed(rules.at(), read_rules(alloc, rules))?;
    Ok(DescriptionParts {
        players,
        variables,
        pieces,
        board,
        rules,
    })
}

/// What was read of a section whose `#` is at this offset.
fn placed<T>(start: usize, read: Reading<T>) -> Result<T, SyntaxError>
    ensures { result ≡ placed start read }
{
    match read {
        Ok(value) => Ok(value),
        Err(error) => Err(error.in_section(start)),
    }
}

/// The section of this kind, which every description must have.
fn needed<'a>(source: &'a Source<'_>, which: SectionKind) -> Result<Section<'a>, SyntaxError>
    ensures found { IfOk result (λ s. slice_get (sections_of which source.now) 0 ≡ Some s) }
    ensures missing { IfErr result (IsMissing which source.now) }
{
    find(source, which).ok_or(SyntaxError::MissingSection { which })
}

#[tactic(auto, using(crate::proofs::Answers::endings, rbg_grammar::proofs::PhraseLaws::bounded_takes_some), unfolding(rbg_grammar::specs::Reading::whole_at))]
fn read_players(alloc: Global, section: Section<'_>) -> Reading<Vec<Bounded<'_>>>
    ensures { Gives bounded_list_of result
        (whole_at (separated_at Comma bounded_at) section.entry.tokens) }
{
    let mut parser = Parser::new(section);
    let players = parser.separated(alloc, Symbol::Comma)?;
    parser.end(Expectation::End)?;
    Ok(players)
}

#[tactic(auto, using(crate::proofs::Answers::endings, rbg_grammar::proofs::PhraseLaws::name_takes_some), unfolding(rbg_grammar::specs::Reading::whole_at))]
fn read_pieces(alloc: Global, section: Section<'_>) -> Reading<Vec<Name<'_>>>
    ensures { Gives names_of result (whole_at (separated_at Comma name_at) section.entry.tokens) }
{
    let mut parser = Parser::new(section);
    let pieces = parser.separated(alloc, Symbol::Comma)?;
    parser.end(Expectation::End)?;
    Ok(pieces)
}

/// The variables. There are none if they have no section.
fn variables_of<'a>(alloc: Global, source: &'a Source<'_>) -> Result<Vec<Bounded<'a>>, SyntaxError>
    ensures { GivesAt (start_of (sections_of Variables source.now)) bounded_list_of result
        (variables_at (sections_of Variables source.now)) }
{
    match find(source, SectionKind::Variables) {
        Some(section) => placed(section.at(), read_variables(alloc, section)),
        None => Ok(Vec::new(alloc)),
    }
}

#[tactic(auto, using(crate::proofs::Answers::endings, rbg_grammar::proofs::PhraseLaws::bounded_takes_some), unfolding(rbg_grammar::specs::Reading::whole_at))]
fn read_variables(alloc: Global, section: Section<'_>) -> Reading<Vec<Bounded<'_>>>
    ensures { Gives bounded_list_of result
        (whole_at (listed_at is_name_kind bounded_at) section.entry.tokens) }
{
    let mut parser = Parser::new(section);
    let variables = parser.listed(alloc)?;
    let what = if variables.is_empty() {
        Expectation::Name
    } else {
        Expectation::End
    };
    parser.end(what)?;
    Ok(variables)
}

#[tactic(auto, using(crate::proofs::Answers::endings), unfolding(rbg_grammar::specs::Reading::whole_at))]
fn read_board(alloc: Global, section: Section<'_>) -> Reading<ParsedBoard<'_>>
    ensures { Gives board_of result (whole_at board_at section.entry.tokens) }
{
    let mut parser = Parser::new(section);
    let board = parser.board(alloc)?;
    parser.end(Expectation::End)?;
    Ok(board)
}

#[tactic(auto, using(crate::proofs::Answers::endings), unfolding(rbg_grammar::specs::Reading::whole_at))]
fn read_rules(alloc: Global, section: Section<'_>) -> Reading<ParsedRule<'_>>
    ensures { GivesWithin rule_of result (whole_at (rules_at max_brackets) section.entry.tokens) }
{
    let mut parser = Parser::new(section);
    let rules = parser.rules(alloc, MAX_BRACKETS)?;
    parser.end(Expectation::End)?;
    Ok(rules)
}
