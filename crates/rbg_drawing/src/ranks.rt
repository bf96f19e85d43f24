//! How far vertices are along an axis: those that other axes join are equally far, and those that this axis joins follow
//! one another.

use crate::graph::Graph;
use crate::named_turns::{Axis, Turn, turn_at};
use std::alloc::{AllocError, Global};

/// How far vertices are along an axis.
#[derive(Drop)]
pub(crate) struct Ranks {
    /// For each vertex twice how far it is.
    pub halves: Vec<usize>,
    /// How far the last one is.
    pub most: usize,
}

impl Ranks {
    /// Twice the room that a floor needs.
    pub(crate) fn width(&self) -> usize {
        self.most.saturating_add(2).saturating_mul(2)
    }
}

/// Two vertices of which the high one is at least so far after the low one.
#[derive(Clone, Copy)]
struct Gap {
    low: usize,
    high: usize,
    least: usize,
}

/// How far vertices are along an axis, or None if they go around in a circle.
pub(crate) fn ranks_along(
    alloc: Global,
    graph: Graph<'_>,
    turns: &[Option<Turn>],
    axis: Axis,
) -> Result<Option<Ranks>, AllocError> {
    let gaps = gaps_of(alloc, graph, turns, axis)?;
    let Some(before) = longest_ways(alloc, graph.count, gaps.as_slice(), false)? else {
        return Ok(None);
    };
    let Some(after) = longest_ways(alloc, graph.count, gaps.as_slice(), true)? else {
        return Ok(None);
    };
    Ok(Some(ranks_between(alloc, &before, &after)?))
}

/// Each vertex is as far from the first as from the last one: in the middle of where it may be.
fn ranks_between(alloc: Global, before: &[usize], after: &[usize]) -> Result<Ranks, AllocError> {
    let mut most = 0usize;
    for way in before {
        most = most.max(*way);
    }
    let mut halves = Vec::new(alloc);
    for (low, high) in before.iter().zip(after.iter()) {
        halves.push(low.saturating_add(most).saturating_sub(*high))?;
    }
    Ok(Ranks { halves, most })
}

/// The gaps between vertices along an axis: there is none where an edge leads along another axis, in both directions.
fn gaps_of(
    alloc: Global,
    graph: Graph<'_>,
    turns: &[Option<Turn>],
    axis: Axis,
) -> Result<Vec<Gap>, AllocError> {
    let mut gaps = Vec::new(alloc);
    for edge in graph.edges {
        if let Some(turn) = turn_at(turns, edge) {
            let is_along = turn.axis == axis;
            if turn.is_onward || !is_along {
                gaps.push(gap_between(edge.from, edge.to, is_along))?;
            }
            if !turn.is_onward || !is_along {
                gaps.push(gap_between(edge.to, edge.from, is_along))?;
            }
        }
    }
    Ok(gaps)
}

fn gap_between(low: usize, high: usize, is_along: bool) -> Gap {
    let least = if is_along { 1 } else { 0 };
    Gap { low, high, least }
}

/// The longest way over gaps to each of so many vertices, or from each, or None if gaps go around in a circle.
fn longest_ways(
    alloc: Global,
    count: usize,
    gaps: &[Gap],
    is_back: bool,
) -> Result<Option<Vec<usize>>, AllocError> {
    let mut ways = Vec::new(alloc);
    for _ in 0..count {
        ways.push(0usize)?;
    }
    for _ in 0..count.saturating_add(1) {
        let longest = lengthen(&mut ways, gaps, is_back);
        if longest == 0 {
            return Ok(Some(ways));
        }
        if longest > count {
            return Ok(None);
        }
    }
    Ok(None)
}

/// Makes ways as long as each gap asks for. Returns the longest one that has become longer, or 0.
fn lengthen(ways: &mut [usize], gaps: &[Gap], is_back: bool) -> usize {
    let mut longest = 0usize;
    for gap in gaps {
        let (from, to) = if is_back {
            (gap.high, gap.low)
        } else {
            (gap.low, gap.high)
        };
        let next = ways
            .get(from)
            .copied()
            .unwrap_or(0)
            .saturating_add(gap.least);
        if let Some(way) = ways.get_mut(to)
            && *way < next
        {
            *way = next;
            longest = longest.max(next);
        }
    }
    longest
}
