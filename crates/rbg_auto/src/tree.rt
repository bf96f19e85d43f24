//! Where the words of a part of the rules begin.
ghost use Rattle.std.specs.Prelude.{IfOk};
ghost use Rattle.rbg_auto.specs.internal.Trees.{GivesFirsts, GivesFirstsOfSequence, GivesFirstsOfSum};

use rbg_base::{Memory, Position};
use rbg_rules::Rule;

/// Appends the positions with which words of the rule begin, in order of text. Returns whether the empty list is one of
/// its words.
#[cycle(first)]
pub(crate) fn push_first(rule: &Rule, first: &mut Vec<Position>) -> Result<bool, Memory>
    ensures { IfOk result (λ empty. GivesFirsts rule.now first.old.items first.new.items empty) }
{
    match rule {
        Rule::Act(position) => {
            first.push(*position)?;
            Ok(false)
        }
        Rule::Pattern { position, .. } => {
            first.push(*position)?;
            Ok(false)
        }
        Rule::Then(parts) => push_first_of_sequence(parts.as_slice(), first),
        Rule::Or(parts) => push_first_of_sum(parts.as_slice(), first),
        Rule::Star(part) => {
            push_first(part, first)?;
            Ok(true)
        }
    }
}

/// The same of the sequence of the parts: up to the first part that may not be empty.
#[cycle(first)]
fn push_first_of_sequence(parts: &[Rule], first: &mut Vec<Position>) -> Result<bool, Memory>
    ensures { IfOk result (λ empty.
        GivesFirstsOfSequence parts.now first.old.items first.new.items empty) }
{
    for part in parts {
        if !push_first(part, first)? {
            return Ok(false);
        }
    }
    Ok(true)
}

/// The same of the sum of the parts.
#[cycle(first)]
fn push_first_of_sum(parts: &[Rule], first: &mut Vec<Position>) -> Result<bool, Memory>
    ensures { IfOk result (λ empty.
        GivesFirstsOfSum parts.now first.old.items first.new.items empty) }
{
    let mut may_be_empty = false;
    for part in parts {
        if push_first(part, first)? {
            may_be_empty = true;
        }
    }
    Ok(may_be_empty)
}
