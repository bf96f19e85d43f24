//! The rest of two games' rules, compared.
ghost use Rattle.std.specs.Prelude.{◌≡◌, IfOk, IfSome, IsTrue, map};
ghost use Rattle.rbg_rules.specs.Meaning.{rules_of, sequence_of};
ghost use Rattle.rbg_position.specs.Onward.{SameRest};
ghost use Rattle.rbg_position.specs.Renumbering.{number_in};
ghost use Rattle.rbg_position.specs.internal.Marks.{renumbered_mark, rules_key};
ghost use Rattle.rbg_position.specs.internal.RestParts.{IsKeyOfRest, parts_of};

use crate::key_mark::{KeyMark, put};
use crate::rest::push_rest;
use crate::rule_keys::put_rule;
use rbg_base::{Memory, Position};
use rbg_rules::{Action, Rule, Rules};
use std::alloc::Global;

/// The last action before a place, by its position in the rules.
#[derive(Clone, Copy)]
pub(crate) struct LastAction<'a> {
    pub rules: &'a Rules,
    pub position: Position,
}

/// Whether the rest of new rules after an action, with the old numbers, is that of the old ones after theirs.
pub(crate) fn same_rest(
    alloc: Global,
    new: LastAction<'_>,
    old: LastAction<'_>,
    numbers: &[Position],
) -> Result<bool, Memory>
    ensures { IfOk result (λ same. IsTrue same →
        SameRest (rules_of new.entry.rules.now) new.entry.position
        (rules_of old.entry.rules.now) old.entry.position (number_in numbers.now)) }
{
    let Some(new_key) = key_of_rest(alloc, new.rules, new.position)? else {
        return Ok(false);
    };
    let Some(old_key) = key_of_rest(alloc, old.rules, old.position)? else {
        return Ok(false);
    };
    let new_key = renumbered(alloc, &new_key, numbers)?;
    Ok(new_key.as_slice() == old_key.as_slice())
}

/// The key of the rest of rules after an action, or None if they haven't that action.
fn key_of_rest(
    alloc: Global,
    rules: &Rules,
    position: Position,
) -> Result<Option<Vec<KeyMark>>, Memory>
    ensures { IfOk result (λ key. IfSome key (λ key.
        IsKeyOfRest (rules_of rules.now) position key.items)) }
{
    let mut parts = Vec::new(alloc);
    if !push_rest(&rules.tree, position, &rules.actions, &mut parts)? {
        return Ok(None);
    }
    let key = key_of_parts(alloc, &parts, &rules.actions)?;
    Ok(Some(key))
}

/// The key of the sequence of parts.
fn key_of_parts(alloc: Global, parts: &[&Rule], actions: &[Action]) -> Result<Vec<KeyMark>, Memory>
    ensures { IfOk result (λ key. key.items
        ≡ rules_key (sequence_of (parts_of actions.now parts.now))) }
{
    let mut key = Vec::new(alloc);
    put(KeyMark::Skip, &mut key)?;
    for part in parts {
        let part: &Rule = part;
        put_rule(part, actions, &mut key)?;
        put(KeyMark::Then, &mut key)?;
    }
    Ok(key)
}

/// The key with other numbers for the positions.
fn renumbered(alloc: Global, key: &[KeyMark], numbers: &[Position]) -> Result<Vec<KeyMark>, Memory>
    ensures { IfOk result (λ new. new.items
        ≡ map (renumbered_mark (number_in numbers.now)) key.now) }
{
    let mut new = Vec::with_capacity(alloc, key.len())?;
    for mark in key {
        new.push(renumbered_mark(*mark, numbers))?;
    }
    Ok(new)
}

/// A mark with another number, if it is that of a position.
fn renumbered_mark(mark: KeyMark, numbers: &[Position]) -> KeyMark
    ensures { result ≡ renumbered_mark (number_in numbers.now) mark }
{
    match mark {
        KeyMark::Act(position) => KeyMark::Act(number_of(position, numbers)),
        _ => mark,
    }
}

/// The number of a position. One that the list hasn't keeps its own.
fn number_of(position: Position, numbers: &[Position]) -> Position
    ensures { result ≡ number_in numbers.now position }
{
    match numbers.get(position as usize) {
        Some(number) => *number,
        None => position,
    }
}
