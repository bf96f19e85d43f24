//! What an author is warned of, in words.

use crate::boards::nth_direction;
use crate::calls::{calls_of, relate_calls};
use crate::doubted::{push_doubts, value_start};
use crate::drawing_comments::push_comments;
use crate::spot::Spot;
use rbg_base::Position;
use rbg_game::Game;
use rbg_lint::{
    Diagnostic, Look, MessageWriter, Severity, cut, expanded, index_of, is_section,
    line_and_column, nth_name, push_warnings, section_tokens, unroll,
};
use rbg_macro::{SectionKind, Source, Symbol, Token, Tokens};
use rbg_rules::Action;
use rbg_warnings::{NamedThing, Warning, actions, warnings};
use std::alloc::{AllocError, Global};

/// A text, its tokens, and the game that it describes.
#[derive(Clone, Copy)]
struct Written<'a> {
    text: &'a [u8],
    tokens: &'a [Token<'a>],
    game: &'a Game,
}

/// The warnings of the game that a text with these tokens describes.
pub fn game_warnings(
    alloc: Global,
    text: &[u8],
    tokens: &Tokens<'_>,
    game: &Game,
) -> Result<Vec<Diagnostic>, AllocError> {
    let mut found = Vec::new(alloc);
    push_game_warnings(alloc, text, tokens, game, &mut found)?;
    push_uncalled(alloc, tokens.as_slice(), &mut found)?;
    push_looks(alloc, text, tokens, &mut found)?;
    Ok(found)
}

/// Adds what is found by looking at the text.
fn push_looks(
    alloc: Global,
    text: &[u8],
    tokens: &Tokens<'_>,
    found: &mut Vec<Diagnostic>,
) -> Result<(), AllocError> {
    let unrolled = unroll(alloc, text, tokens.as_slice())?;
    match cut(alloc, &unrolled.text)? {
        Some(cut) => {
            let look = Look {
                text,
                tokens: tokens.as_slice(),
                unrolled: &unrolled,
                flat: cut.as_slice(),
            };
            push_warnings(alloc, look, found)
        }
        None => Ok(()),
    }
}

/// Adds a warning of a kind about a token, with its name between two parts of its words.
fn push_warning(
    alloc: Global,
    found: &mut Vec<Diagnostic>,
    code: &'static str,
    token: Token<'_>,
    words: [&str; 2],
) -> Result<(), AllocError> {
    let [before, after] = words;
    let mut warning = warning_at(alloc, code, token);
    let mut writer = MessageWriter::new(alloc, &mut warning.message);
    writer.named(before, token.text, after);
    writer.end()?;
    push_new(found, warning)
}

/// A warning of a kind about a token, of which nothing is said yet.
pub(crate) fn warning_at(alloc: Global, code: &'static str, token: Token<'_>) -> Diagnostic {
    Diagnostic::new(alloc, Severity::Warning, code, token.at, token.text.len())
}

/// Adds a warning, unless one of its kind is at its place already.
pub(crate) fn push_new(found: &mut Vec<Diagnostic>, warning: Diagnostic) -> Result<(), AllocError> {
    if !is_warned(found, &warning) {
        found.push(warning)?;
    }
    Ok(())
}

fn is_warned(found: &[Diagnostic], warning: &Diagnostic) -> bool {
    for other in found {
        if other.start == warning.start && other.code == warning.code {
            return true;
        }
    }
    false
}

/// Adds the warnings of the game, where the macros of the text are expanded.
fn push_game_warnings(
    alloc: Global,
    text: &[u8],
    tokens: &Tokens<'_>,
    game: &Game,
    found: &mut Vec<Diagnostic>,
) -> Result<(), AllocError> {
    match expanded(alloc, tokens)? {
        Some(source) => {
            let written = Written {
                text,
                tokens: tokens.as_slice(),
                game,
            };
            push_source_warnings(alloc, written, &source, found)
        }
        None => Ok(()),
    }
}

/// Adds the warnings of the game with these sections.
fn push_source_warnings(
    alloc: Global,
    written: Written<'_>,
    source: &Source<'_>,
    found: &mut Vec<Diagnostic>,
) -> Result<(), AllocError> {
    let rules = section_tokens(alloc, source, SectionKind::Rules)?;
    let actions = actions(alloc, &rules)?;
    push_warnings_among(alloc, written, source, &actions, found)?;
    push_doubts(alloc, written.text, &actions, written.game, found)?;
    push_comments(alloc, written.text, source, found)
}

/// Adds the warnings of the game with these sections and actions.
fn push_warnings_among(
    alloc: Global,
    written: Written<'_>,
    source: &Source<'_>,
    actions: &[&[Token<'_>]],
    found: &mut Vec<Diagnostic>,
) -> Result<(), AllocError> {
    let game = written.game;
    for warning in &warnings(alloc, game)? {
        match warning {
            Warning::TooGreat { position } => {
                let index = (*position as usize).saturating_sub(1);
                let action = actions.get(index).copied().unwrap_or(&[]);
                push_too_great(alloc, written, action, bound_at(game, *position), found)?;
            }
            Warning::Unused { thing } => {
                push_unused(alloc, found, source, game.players(), *thing)?;
            }
        }
    }
    Ok(())
}

/// The bound of the variable to which a position assigns.
fn bound_at(game: &Game, position: Position) -> u32 {
    if position == 0 || (position as usize) > game.positions() {
        return 0;
    }
    match game.action(position) {
        Action::Assign { variable, .. } if (*variable as usize) < game.variables() => {
            game.bound(*variable)
        }
        _ => 0,
    }
}

/// Adds that the number of an assignment is above the bound of its variable, the first name of its action. One number of a
/// macro's body is reported once.
fn push_too_great(
    alloc: Global,
    written: Written<'_>,
    action: &[Token<'_>],
    bound: u32,
    found: &mut Vec<Diagnostic>,
) -> Result<(), AllocError> {
    let (Some(variable), Some(number)) = (nth_name(action, 0), value_start(action)) else {
        return Ok(());
    };
    let mut warning = warning_at(alloc, "AboveBound", number);
    let mut writer = MessageWriter::new(alloc, &mut warning.message);
    writer.text("the number is above ");
    writer.shown(&bound);
    writer.named(
        ", the bound of ",
        variable.text,
        ", so this assignment is never valid",
    );
    writer.end()?;
    relate_macro(alloc, written, &mut warning, number, variable)?;
    push_new(found, warning)
}

/// The name of the macro in whose body a token stands.
fn macro_around<'a>(tokens: &'a [Token<'a>], token: Token<'_>) -> Option<Token<'a>> {
    Spot::find(tokens, token.at)?.macro_name()
}

/// Adds to a warning on a number in the body of a macro which macro that is, and where the variable is an argument or else
/// where the macro is called.
fn relate_macro(
    alloc: Global,
    written: Written<'_>,
    warning: &mut Diagnostic,
    number: Token<'_>,
    variable: Token<'_>,
) -> Result<(), AllocError> {
    let Some(head) = macro_around(written.tokens, number) else {
        return Ok(());
    };
    let mut words = Vec::new(alloc);
    let mut writer = MessageWriter::new(alloc, &mut words);
    writer.named("in the body of the macro ", head.text, "");
    writer.end()?;
    warning.relate(head.at, head.text.len(), words)?;
    match macro_around(written.tokens, variable) {
        Some(around) if around.at == head.at => {
            relate_calls(alloc, warning, written.text, written.tokens, head.text)
        }
        _ => relate_argument(alloc, written.text, warning, variable),
    }
}

/// Adds to a warning where a variable is the argument of a call.
fn relate_argument(
    alloc: Global,
    text: &[u8],
    warning: &mut Diagnostic,
    variable: Token<'_>,
) -> Result<(), AllocError> {
    let mut words = Vec::new(alloc);
    let mut writer = MessageWriter::new(alloc, &mut words);
    writer.named("called with ", variable.text, "");
    writer.place(" at ", line_and_column(text, variable.at), "");
    writer.end()?;
    warning.relate(variable.at, variable.text.len(), words)
}

/// Adds that the rules never use a thing, at its name in the section that lists it.
fn push_unused(
    alloc: Global,
    found: &mut Vec<Diagnostic>,
    source: &Source<'_>,
    players: usize,
    thing: NamedThing,
) -> Result<(), AllocError> {
    let tokens = section_tokens(alloc, source, section_of(thing))?;
    match named_token(&tokens, players, thing) {
        Some(token) => push_warning(alloc, found, "Unused", token, unused_words(thing)),
        None => Ok(()),
    }
}

/// The section that lists a thing.
fn section_of(thing: NamedThing) -> SectionKind {
    match thing {
        NamedThing::Player { .. } => SectionKind::Players,
        NamedThing::Piece { .. } => SectionKind::Pieces,
        NamedThing::Variable { .. } => SectionKind::Variables,
        NamedThing::Direction { .. } => SectionKind::Board,
    }
}

/// The name of a thing among the tokens of its section. The first variables are so many players.
fn named_token<'a>(
    tokens: &'a [Token<'a>],
    players: usize,
    thing: NamedThing,
) -> Option<Token<'a>> {
    match thing {
        NamedThing::Player { player } => nth_name(tokens, (player as usize).saturating_sub(1)),
        NamedThing::Piece { piece } => nth_name(tokens, piece as usize),
        NamedThing::Variable { variable } => {
            nth_name(tokens, (variable as usize).saturating_sub(players))
        }
        NamedThing::Direction { direction } => nth_direction(tokens, direction as usize),
    }
}

/// What is said of a thing, before its name and after it.
fn unused_words(thing: NamedThing) -> [&'static str; 2] {
    match thing {
        NamedThing::Player { .. } => ["no switch gives the turn to the player ", ""],
        NamedThing::Piece { .. } => [
            "no vertex has the piece ",
            " at the beginning, and no off puts it",
        ],
        NamedThing::Variable { .. } => ["the rules never name the variable ", ""],
        NamedThing::Direction { .. } => ["the rules never write the direction ", ""],
    }
}

/// Adds each macro that is never called. Where a text joins tokens any name may be made, so none is reported.
fn push_uncalled(
    alloc: Global,
    tokens: &[Token<'_>],
    found: &mut Vec<Diagnostic>,
) -> Result<(), AllocError> {
    if index_of(tokens, Symbol::Tilde).is_some() {
        return Ok(());
    }
    for (index, token) in tokens.iter().enumerate() {
        if token.is(Symbol::Hash)
            && let Some(head) = tokens.get(index.saturating_add(1))
        {
            push_if_uncalled(alloc, tokens, *head, found)?;
        }
    }
    Ok(())
}

/// Adds the macro with this name in its head, if nothing calls it.
fn push_if_uncalled(
    alloc: Global,
    tokens: &[Token<'_>],
    head: Token<'_>,
    found: &mut Vec<Diagnostic>,
) -> Result<(), AllocError> {
    if is_section(head.text) || is_called(alloc, tokens, head.text)? {
        return Ok(());
    }
    push_warning(
        alloc,
        found,
        "Uncalled",
        head,
        ["nothing calls the macro ", ""],
    )
}

fn is_called(alloc: Global, tokens: &[Token<'_>], name: &[u8]) -> Result<bool, AllocError> {
    let calls = calls_of(alloc, tokens, name)?;
    Ok(!calls.is_empty())
}
