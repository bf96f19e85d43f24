//! From the text of a game to the game.
ghost use Rattle.std.specs.Prelude.{ℕ, List, IfOk, IfErr, ◌≢◌};
ghost use Rattle.rbg_macro.specs.Text.{HasTokens};
ghost use Rattle.rbg_grammar.specs.Descriptions.{description_of};
ghost use Rattle.rbg_rules.specs.Meaning.{AbstractGame};
ghost use Rattle.rbg_game.specs.Descriptions.{IsGameOf};
ghost use Rattle.rbg_game.specs.Faults.{HasFault};
ghost use Rattle.rbg_game.specs.Layouts.{IsLayoutOf, HasLayout};
ghost use Rattle.rbg_game.specs.Loading.{Loads, IsRefused};

use crate::checking::check;
use crate::error::LoadError;
use crate::game_error::GameError;
use crate::layout::{Layout, layout_of};
use rbg_grammar::Description;
use rbg_macro::{Tokens, expand, tokens};
use rbg_rules::Game;
use rbg_syntax::parse;
use std::alloc::Global;

/// A game, and the layout of its board.
#[derive(Drop)]
pub struct LoadedGame {
    pub game: Game,
    pub layout: Layout,
}

/// The game of a text: its tokens are cut, its macros are expanded, its sections are read, and what they spell is
/// checked. The error is that of the first layer that refuses the text.
pub fn load(alloc: Global, text: &[u8]) -> Result<Game, LoadError>
    ensures game { IfOk result (Loads text.now) }
    ensures refused { IfErr result (IsRefused text.now) }
{
    let tokens = tokens(alloc, text)?;
    let loaded = load_with_layout(alloc, &tokens)?;
    Ok(loaded.game)
}

/// The game of the text that was cut into these tokens, as `load` gives it, with the layout of its board.
pub fn load_with_layout(alloc: Global, tokens: &Tokens<'_>) -> Result<LoadedGame, LoadError>
    ensures game { (text : List ℕ) → HasTokens text tokens.now
        → IfOk result (λ loaded. Loads text loaded.game) }
    ensures layout { (text : List ℕ) → HasTokens text tokens.now
        → IfOk result (λ loaded. HasLayout text loaded.layout) }
    ensures refused { (text : List ℕ) → HasTokens text tokens.now
        → IfErr result (IsRefused text) }
{
    let source = expand(alloc, tokens)?;
    let description = parse(alloc, &source)?;
    Ok(check_with_layout(alloc, description)?)
}

/// The game of a description, with the layout of its board.
fn check_with_layout(alloc: Global, description: Description<'_>) -> Result<LoadedGame, GameError>
    ensures game { IfOk result (λ loaded.
        IsGameOf (description_of description.entry) loaded.game) }
    ensures layout { IfOk result (λ loaded.
        IsLayoutOf (description_of description.entry).board loaded.layout) }
    ensures fault { IfErr result (HasFault (description_of description.entry)) }
    ensures refused { IfErr result (λ e. e ≢ GameError.Memory → (game : AbstractGame)
        → ¬ IsGameOf (description_of description.entry) game) }
{
    let layout = layout_of(alloc, description.board())?;
    let game = check(alloc, description)?;
    Ok(LoadedGame { game, layout })
}
