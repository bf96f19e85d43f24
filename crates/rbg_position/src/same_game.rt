//! Two games, compared.
ghost use Rattle.std.specs.Prelude.{◌≡◌, ◌↔◌, IfOk, IsTrue};
ghost use Rattle.rbg_rules.specs.Meaning.{rules_of};
ghost use Rattle.rbg_position.specs.Same.{IsNarrow, game_with};
ghost use Rattle.rbg_position.specs.internal.Marks.{rules_key};

use crate::key_mark::KeyMark;
use crate::names::same_names;
use crate::rule_keys::put_rule;
use crate::same_board::is_board_with;
use rbg_base::{Memory, Piece};
use rbg_rules::{Game, Rules};
use std::alloc::Global;

/// Whether a game is another one with these pieces on its board when play begins.
pub fn is_game_with(alloc: Global, new: &Game, old: &Game, pieces: &[Piece]) -> Result<bool, Memory>
    ensures same { IfOk result (λ is. IsTrue is → new.now ≡ game_with old.now pieces.now) }
    ensures whole { IfOk result (λ is. IsNarrow old.now.board →
        new.now ≡ game_with old.now pieces.now → IsTrue is) }
{
    if !same_names(old, new) {
        return Ok(false);
    }
    if !is_board_with(new.board(), old.board(), pieces) {
        return Ok(false);
    }
    same_rules(alloc, old.rules(), new.rules())
}

/// Whether the rules of two games are the same.
fn same_rules(alloc: Global, old: &Rules, new: &Rules) -> Result<bool, Memory>
    ensures { IfOk result (λ same. IsTrue same ↔ (rules_of old.now ≡ rules_of new.now)) }
{
    let old = key_of(alloc, old)?;
    let new = key_of(alloc, new)?;
    Ok(old.as_slice() == new.as_slice())
}

fn key_of(alloc: Global, rules: &Rules) -> Result<Vec<KeyMark>, Memory>
    ensures { IfOk result (λ key. key.items ≡ rules_key (rules_of rules.now)) }
{
    let mut key = Vec::new(alloc);
    put_rule(&rules.tree, &rules.actions, &mut key)?;
    Ok(key)
}
