//! The rules of a description by numbers: names are looked up, and the actions are numbered in order of text.
ghost use Rattle.std.specs.Prelude.{◌≡◌, ◌≤◌, IfOk, IfErr, All, map, length, true};
ghost use Rattle.rbg_grammar.specs.Formed.{is_formed, is_formed_action};
ghost use Rattle.rbg_grammar.specs.Tree.{no_rules, rules_after, sequence, act};
ghost use Rattle.rbg_grammar.specs.Views.{rule_of, action_of};
ghost use Rattle.rbg_game.specs.RuleFaults.{HasRuleFault};
ghost use Rattle.rbg_game.specs.Numbered.{names_of, IsWithinLimits, AreRulesByNumbers};
ghost use Rattle.rbg_game.specs.internal.Steps.{AddsRule, AddsParts, HasFaultFrom};

use crate::actions::{add_action, open_pattern};
use crate::game_error::GameError;
use crate::tables::NameTables;
use rbg_grammar::{ParsedAction, ParsedRule};
use rbg_rules::limits::{MAX_NESTED_PATTERNS, MAX_POSITIONS};
use rbg_rules::{Action, Rule, Rules};
use std::alloc::Global;

/// The rules by numbers.
pub fn number_rules(
    alloc: Global,
    names: &NameTables<'_>,
    rule: &ParsedRule<'_>,
) -> Result<Rules, GameError>
    requires formed { is_formed (rule_of rule.now) ≡ true }
    requires limits { IsWithinLimits (names_of names.now) }
    ensures rules { IfOk result (AreRulesByNumbers (names_of names.now) (rule_of rule.now)) }
    ensures fault { IfErr result (HasRuleFault (names_of names.now) (rule_of rule.now)) }
{
    let mut actions = Vec::new(alloc);
    let tree = number_rule(alloc, names, MAX_NESTED_PATTERNS, rule, &mut actions)?;
    Ok(Rules { tree, actions })
}

/// A rule by numbers. Its actions go into the table. `patterns_left` patterns may still be opened around it.
#[cycle(numbering)]
fn number_rule(
    alloc: Global,
    names: &NameTables<'_>,
    patterns_left: usize,
    rule: &ParsedRule<'_>,
    actions: &mut Vec<Action>,
) -> Result<Rule, GameError>
    requires formed { is_formed (rule_of rule.now) ≡ true }
    requires limits { IsWithinLimits (names_of names.now) }
    requires room { length actions.old.items ≤ MAX_POSITIONS }
    requires nesting { patterns_left ≤ MAX_NESTED_PATTERNS }
    ensures rule { IfOk result (AddsRule (names_of names.now) patterns_left (rule_of rule.now)
        actions.old.items actions.new.items) }
    ensures fault { IfErr result (HasFaultFrom (names_of names.now) patterns_left
        (length actions.old.items) (rule_of rule.now)) }
{
    match rule {
        ParsedRule::Act(action) => number_act(alloc, names, patterns_left, action, actions),
        ParsedRule::Then(parts) => {
            let parts = number_parts(alloc, names, patterns_left, parts, actions)?;
            Ok(Rule::Then(parts))
        }
        ParsedRule::Or(parts) => {
            let parts = number_parts(alloc, names, patterns_left, parts, actions)?;
            Ok(Rule::Or(parts))
        }
        ParsedRule::Star(part) => {
            let part = number_rule(alloc, names, patterns_left, part, actions)?;
            Ok(Rule::Star(Box::new(alloc, part)?))
        }
    }
}

/// The parts of a sequence or a sum.
#[cycle(numbering)]
fn number_parts(
    alloc: Global,
    names: &NameTables<'_>,
    patterns_left: usize,
    parts: &[ParsedRule<'_>],
    actions: &mut Vec<Action>,
) -> Result<Vec<Rule>, GameError>
    requires formed { All (λ part. is_formed (rule_of part) ≡ true) parts.now }
    requires limits { IsWithinLimits (names_of names.now) }
    requires room { length actions.old.items ≤ MAX_POSITIONS }
    requires nesting { patterns_left ≤ MAX_NESTED_PATTERNS }
    ensures parts { IfOk result
        (λ xs. AddsParts (names_of names.now) patterns_left (map rule_of parts.now)
        actions.old.items actions.new.items xs.items) }
    ensures fault { IfErr result
        (HasFaultFrom (names_of names.now) patterns_left (length actions.old.items)
        (sequence (rules_after no_rules (map rule_of parts.now)))) }
{
    let mut rules = Vec::with_capacity(alloc, parts.len())?;
    for part in parts {
        rules.push(number_rule(alloc, names, patterns_left, part, actions)?)?;
    }
    Ok(rules)
}

/// An action by its position. A pattern takes its position before the actions inside it.
#[cycle(numbering)]
fn number_act(
    alloc: Global,
    names: &NameTables<'_>,
    patterns_left: usize,
    action: &ParsedAction<'_>,
    actions: &mut Vec<Action>,
) -> Result<Rule, GameError>
    requires formed { is_formed_action (action_of action.now) ≡ true }
    requires limits { IsWithinLimits (names_of names.now) }
    requires room { length actions.old.items ≤ MAX_POSITIONS }
    requires nesting { patterns_left ≤ MAX_NESTED_PATTERNS }
    ensures rule { IfOk result (AddsRule (names_of names.now) patterns_left
        (act (action_of action.now)) actions.old.items actions.new.items) }
    ensures fault { IfErr result (HasFaultFrom (names_of names.now) patterns_left
        (length actions.old.items) (act (action_of action.now))) }
{
    match action {
        ParsedAction::PositivePattern { at, rule } => {
            let position = open_pattern(patterns_left, *at, Action::Positive, actions)?;
            let inside = number_rule(alloc, names, patterns_left - 1, rule, actions)?;
            Ok(Rule::Pattern {
                position,
                inside: Box::new(alloc, inside)?,
            })
        }
        ParsedAction::NegativePattern { at, rule } => {
            let position = open_pattern(patterns_left, *at, Action::Negative, actions)?;
            let inside = number_rule(alloc, names, patterns_left - 1, rule, actions)?;
            Ok(Rule::Pattern {
                position,
                inside: Box::new(alloc, inside)?,
            })
        }
        ParsedAction::Shift(_)
        | ParsedAction::On(_)
        | ParsedAction::Off(_)
        | ParsedAction::Assign { .. }
        | ParsedAction::Compare { .. }
        | ParsedAction::Switch { .. } => {
            let position = add_action(alloc, names, patterns_left, action, actions)?;
            Ok(Rule::Act(position))
        }
    }
}
