//! Words for what was expected, and for limits.

use crate::spot::{Needed, Spot};
use rbg_game::Thing;
use rbg_game::limits::{MAX_DIRECTIONS, MAX_PIECES, MAX_PLAYERS, MAX_POSITIONS, MAX_VARIABLES};
use rbg_lint::{MessageWriter, NameKind};
use rbg_macro::{Symbol, Token};
use rbg_syntax::Expectation;

/// What fits after the first tokens of a definition's head.
pub(crate) fn head_words(head: &[Token<'_>]) -> &'static str {
    match head {
        [] => "`#`",
        [_] => "the name of a section or a macro",
        [_, _] => "`=` or a macro's parameters",
        [.., last] if last.is(Symbol::OpenParenthesis) || last.is(Symbol::Semicolon) => {
            "the name of one more parameter"
        }
        [.., last] if last.is(Symbol::CloseParenthesis) => "`=`",
        _ => "`;` or `)`",
    }
}

/// What is needed at a token.
pub(crate) fn expectation_words(what: Expectation, spot: Option<Spot<'_>>) -> &'static str {
    match what {
        Expectation::Name => "a name",
        Expectation::Number => "a number",
        Expectation::Opening => match spot {
            Some(spot) if spot.lists_bounds() => "a bound in parentheses, as in `white(100)`",
            _ => "an opening bracket",
        },
        Expectation::Closing => "the list's next part or its closing bracket",
        Expectation::Equals => "`=`",
        Expectation::Comma => "`,`",
        Expectation::Colon => "`:`",
        Expectation::Item => "an action or a `(`",
        Expectation::Factor => "a number, a name, `(` or `-`",
        Expectation::Relation => "one of `==`, `!=`, `<`, `<=`, `>` and `>=`",
        Expectation::Generator => "`rectangle`, `hexagon` or `graph`",
        Expectation::End => match spot {
            Some(spot) if spot.lists_bounds() || spot.is_in("pieces") => {
                "`,` or the end of the section"
            }
            _ => "the end of the section",
        },
    }
}

pub(crate) fn needed_words(needed: Needed) -> &'static str {
    match needed {
        Needed::Direction => "the name of a direction or a macro",
        Needed::Piece => "the name of a piece",
        Needed::Player => "the name of a player",
        Needed::Variable => "the name of a variable",
        Needed::Value => "the name of a variable or a piece",
        Needed::Anything => "the name of a direction, a piece, a player or a variable",
    }
}

/// A name that was found where one of another kind is needed.
#[derive(Clone, Copy)]
pub(crate) struct UsedName<'a> {
    /// As it is spelt there: the name itself, or the parameter in whose place it stands.
    pub spelt: &'a [u8],
    pub name: &'a [u8],
}

/// A longer name is shown in no sample.
const MOST_SAMPLED: usize = 40;

/// Writes how a name of such a kind is used, where another name is needed.
pub(crate) fn write_use(
    writer: &mut MessageWriter<'_>,
    needed: Needed,
    kind: NameKind,
    used: UsedName<'_>,
) {
    if used.spelt.len() > MOST_SAMPLED {
        return;
    }
    match (needed, kind) {
        (Needed::Direction, NameKind::Piece) => {
            write_sample(writer, ": `{", used.spelt, "}` asks for a piece ");
            writer.name(used.name);
            write_sample(writer, ", and `[", used.spelt, "]` puts it");
        }
        (Needed::Direction, NameKind::Player) => {
            write_sample(
                writer,
                ": `->",
                used.spelt,
                "` gives the turn to the player ",
            );
            writer.name(used.name);
        }
        (Needed::Direction, NameKind::Variable) => {
            write_sample(
                writer,
                ": `[$ ",
                used.spelt,
                " = 1]` assigns to the variable ",
            );
            writer.name(used.name);
            write_sample(writer, ", and `{$ ", used.spelt, " == 1}` compares it");
        }
        (Needed::Piece, NameKind::Direction) => {
            write_sample(
                writer,
                ": `{? ",
                used.spelt,
                "}` asks whether there is a way ",
            );
            writer.name(used.name);
            write_sample(writer, ", and `{! ", used.spelt, "}` whether there is none");
        }
        _ => {}
    }
}

/// Writes a name between words.
fn write_sample(writer: &mut MessageWriter<'_>, before: &str, name: &[u8], after: &str) {
    writer.text(before);
    writer.bytes(name);
    writer.text(after);
}

pub(crate) fn most_of(thing: Thing) -> usize {
    match thing {
        Thing::Players => MAX_PLAYERS,
        Thing::Pieces => MAX_PIECES,
        Thing::Variables => MAX_VARIABLES,
        Thing::Directions => MAX_DIRECTIONS,
        Thing::Positions => MAX_POSITIONS,
    }
}
