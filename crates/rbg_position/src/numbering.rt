//! The old number of each action of a description that begins at a place.

use rbg_base::{Memory, Position};
use rbg_rules::Rule;
use std::alloc::Global;

/// The old numbers of positions, from position 0 on: none, which is 0, for so many actions of the keeper, and those of
/// the parts of the rest in order.
pub(crate) fn old_numbers(
    alloc: Global,
    opening: usize,
    parts: &[&Rule],
) -> Result<Vec<Position>, Memory> {
    let mut numbers = Vec::new(alloc);
    numbers.push(0)?;
    for _ in 0..opening {
        numbers.push(0)?;
    }
    for part in parts {
        let part: &Rule = part;
        push_positions(part, &mut numbers)?;
    }
    Ok(numbers)
}

/// Appends the positions of a rule in order of the text: a pattern's is before those inside it.
#[cycle(positions)]
fn push_positions(rule: &Rule, numbers: &mut Vec<Position>) -> Result<(), Memory> {
    match rule {
        Rule::Act(position) => push_number(*position, numbers),
        Rule::Pattern { position, inside } => {
            push_number(*position, numbers)?;
            push_positions(inside, numbers)
        }
        Rule::Then(parts) => push_all_positions(parts, numbers),
        Rule::Or(parts) => push_all_positions(parts, numbers),
        Rule::Star(part) => push_positions(part, numbers),
    }
}

fn push_number(number: Position, numbers: &mut Vec<Position>) -> Result<(), Memory> {
    numbers.push(number)?;
    Ok(())
}

#[cycle(positions)]
fn push_all_positions(parts: &[Rule], numbers: &mut Vec<Position>) -> Result<(), Memory> {
    for part in parts {
        push_positions(part, numbers)?;
    }
    Ok(())
}

/// Positions that follow one another, and whose old numbers do so, too.
#[derive(Clone, Copy, Drop)]
pub(crate) struct Run {
    pub first: usize,
    pub last: usize,
    pub old: Position,
}

/// The runs of the positions that have an old number.
pub(crate) fn runs(alloc: Global, numbers: &[Position]) -> Result<Vec<Run>, Memory> {
    let mut runs = Vec::new(alloc);
    let mut current = None;
    for position in 0..numbers.len() {
        let old = numbers[position];
        if old == 0 {
            continue;
        }
        current = match current {
            Some(run) if goes_on(run, position, old) => Some(longer(run)),
            _ => {
                push_run(current, &mut runs)?;
                Some(Run {
                    first: position,
                    last: position,
                    old,
                })
            }
        };
    }
    push_run(current, &mut runs)?;
    Ok(runs)
}

fn push_run(run: Option<Run>, runs: &mut Vec<Run>) -> Result<(), Memory> {
    if let Some(run) = run {
        runs.push(run)?;
    }
    Ok(())
}

/// A run with one position more.
fn longer(run: Run) -> Run {
    Run {
        first: run.first,
        last: run.last.saturating_add(1),
        old: run.old,
    }
}

/// Whether a position with an old number is the next one of a run.
fn goes_on(run: Run, position: usize, old: Position) -> bool {
    let count = position.saturating_sub(run.first);
    run.last.saturating_add(1) == position
        && (run.old as usize).saturating_add(count) == old as usize
}
