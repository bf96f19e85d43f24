//! The places of a graph's vertices by directions with names like `up`, `west` or `below`.
ghost use Rattle.std.specs.Prelude.{◌<◌};

use crate::edges::Edge;
use crate::graph::{Graph, Placing};
use crate::plan::Use;
use crate::point::{Point, steps};
use crate::ranks::{Ranks, ranks_along};
use rbg_base::Direction;
use rbg_rules::Game;
use std::alloc::{AllocError, Global};

/// An axis of a drawing. `North` is down, or across floors where directions are called both up and north.
#[derive(Clone, Copy, PartialEq, Eq, Drop)]
pub(crate) enum Axis {
    Across,
    Down,
    North,
    Deep,
}

/// Along which axis a direction leads, and whether to greater places.
#[derive(Clone, Copy)]
pub(crate) struct Turn {
    pub axis: Axis,
    pub is_onward: bool,
}

/// Half of the step from one place to the next one: ranks are counted in halves.
const HALF: i64 = 500;

/// The names of turns in small letters.
const TURNS: [(&[u8], Axis, bool); 26] = [
    (b"left", Axis::Across, false),
    (b"right", Axis::Across, true),
    (b"west", Axis::Across, false),
    (b"east", Axis::Across, true),
    (b"w", Axis::Across, false),
    (b"e", Axis::Across, true),
    (b"l", Axis::Across, false),
    (b"r", Axis::Across, true),
    (b"up", Axis::Down, false),
    (b"down", Axis::Down, true),
    (b"u", Axis::Down, false),
    (b"d", Axis::Down, true),
    (b"forward", Axis::Down, false),
    (b"backward", Axis::Down, true),
    (b"north", Axis::North, false),
    (b"south", Axis::North, true),
    (b"n", Axis::North, false),
    (b"s", Axis::North, true),
    (b"above", Axis::Deep, false),
    (b"below", Axis::Deep, true),
    (b"front", Axis::Deep, false),
    (b"behind", Axis::Deep, true),
    (b"out", Axis::Deep, false),
    (b"in", Axis::Deep, true),
    (b"higher", Axis::Deep, false),
    (b"lower", Axis::Deep, true),
];

/// The places by the names of directions, unless they don't distinguish all vertices.
pub(crate) fn placed_by_names(
    alloc: Global,
    game: &Game,
    graph: Graph<'_>,
) -> Result<Option<Placing>, AllocError> {
    let turns = turns_of(alloc, game)?;
    if !has_axis(&turns, Axis::Across)
        || !has_axis(&turns, Axis::Down)
        || !joins_all(alloc, graph, turns.as_slice())?
    {
        return Ok(None);
    }
    match points_along(alloc, graph, turns.as_slice())? {
        Some(points) if are_apart(points.as_slice()) => {
            let uses = uses_of(alloc, turns.as_slice())?;
            Ok(Some(Placing { points, uses }))
        }
        _ => Ok(None),
    }
}

/// How the edges of directions with these turns are drawn.
fn uses_of(alloc: Global, turns: &[Option<Turn>]) -> Result<Vec<Use>, AllocError> {
    let mut uses = Vec::new(alloc);
    for turn in turns {
        uses.push(match turn {
            Some(turn) if turn.axis == Axis::Deep => Use::ToFloor,
            Some(_) => Use::Drawn,
            None => Use::Hidden,
        })?;
    }
    Ok(uses)
}

fn has_axis(turns: &[Option<Turn>], axis: Axis) -> bool {
    for turn in turns {
        if let Some(turn) = turn
            && turn.axis == axis
        {
            return true;
        }
    }
    false
}

/// The turn of each direction, by its name. North is down if no direction leads up or down; else up and down lead to other
/// floors.
fn turns_of(alloc: Global, game: &Game) -> Result<Vec<Option<Turn>>, AllocError> {
    let mut turns = Vec::new(alloc);
    for direction in 0..game.directions() {
        let name = game.direction_name(direction as Direction);
        turns.push(turn_of(name.as_bytes()))?;
    }
    let has_both = has_axis(&turns, Axis::North) && has_axis(&turns, Axis::Down);
    for turn in &mut turns {
        if let Some(turn) = turn {
            turn.axis = match turn.axis {
                Axis::North => Axis::Down,
                Axis::Down if has_both => Axis::Deep,
                axis => axis,
            };
        }
    }
    Ok(turns)
}

/// The turn that a direction's name means, in small letters or capitals.
fn turn_of(name: &[u8]) -> Option<Turn> {
    for (known, axis, is_onward) in TURNS.iter() {
        if is_like(name, *known) {
            return Some(Turn {
                axis: *axis,
                is_onward: *is_onward,
            });
        }
    }
    None
}

/// Whether a name is a word of small letters, but for capitals.
fn is_like(name: &[u8], word: &[u8]) -> bool {
    if name.len() != word.len() {
        return false;
    }
    for (left, right) in name.iter().zip(word.iter()) {
        if left.to_ascii_lowercase() != *right {
            return false;
        }
    }
    true
}

/// Whether each vertex has an edge of a direction with such a name.
fn joins_all(alloc: Global, graph: Graph<'_>, turns: &[Option<Turn>]) -> Result<bool, AllocError> {
    let mut joined = Vec::new(alloc);
    for _ in 0..graph.count {
        joined.push(false)?;
    }
    for edge in graph.edges {
        if turn_at(turns, edge).is_some() {
            mark(&mut joined, edge.from);
            mark(&mut joined, edge.to);
        }
    }
    Ok(!joined.contains(&false))
}

fn mark(flags: &mut [bool], index: usize) {
    if let Some(flag) = flags.get_mut(index) {
        *flag = true;
    }
}

/// The turn of an edge's direction.
pub(crate) fn turn_at(turns: &[Option<Turn>], edge: &Edge) -> Option<Turn> {
    turns.get(edge.direction).copied().flatten()
}

/// The places by these turns, or None if vertices go around in a circle.
fn points_along(
    alloc: Global,
    graph: Graph<'_>,
    turns: &[Option<Turn>],
) -> Result<Option<Vec<Point>>, AllocError> {
    let Some(across) = ranks_along(alloc, graph, turns, Axis::Across)? else {
        return Ok(None);
    };
    let Some(down) = ranks_along(alloc, graph, turns, Axis::Down)? else {
        return Ok(None);
    };
    let Some(deep) = ranks_along(alloc, graph, turns, Axis::Deep)? else {
        return Ok(None);
    };
    Ok(Some(points_of(alloc, &across, &down, &deep)?))
}

/// The places of vertices with these ranks: floors are drawn beside and below one another.
fn points_of(
    alloc: Global,
    across: &Ranks,
    down: &Ranks,
    deep: &Ranks,
) -> Result<Vec<Point>, AllocError> {
    let abreast = deep.most.isqrt() + 1;
    let mut points = Vec::new(alloc);
    for (vertex, x) in across.halves.iter().enumerate() {
        let y = down.halves.get(vertex).copied().unwrap_or(0);
        let floor = deep.halves.get(vertex).copied().unwrap_or(0) / 2;
        let aside = (floor % abreast).saturating_mul(across.width());
        let below = (floor / abreast).saturating_mul(down.width());
        points.push(Point {
            x: steps(x.saturating_add(aside), HALF),
            y: steps(y.saturating_add(below), HALF),
        })?;
    }
    Ok(points)
}

/// Whether no two points are the same.
fn are_apart(points: &[Point]) -> bool {
    for (index, point) in points.iter().enumerate() {
        for other in points.iter().take(index) {
            if point.x == other.x && point.y == other.y {
                return false;
            }
        }
    }
    true
}
