//! The plan of a graph: by the places that comments say; else by directions with names like `up`; else by a direction
//! through all vertices; else by numbers.

use crate::edges::Edge;
use crate::named_turns::placed_by_names;
use crate::plan::{Plan, Shape, Use};
use crate::point::{Point, steps};
use crate::ways::placed_by_way;
use crate::wishes::Wishes;
use rbg_rules::Game;
use std::alloc::{AllocError, Global};

/// A graph: how many vertices it has, how long their longest name is, and its edges.
#[derive(Clone, Copy)]
pub(crate) struct Graph<'a> {
    pub count: usize,
    pub longest: usize,
    pub edges: &'a [Edge],
}

/// The places of a graph's vertices, and how the edges of each direction are drawn.
#[derive(Drop)]
pub(crate) struct Placing {
    pub points: Vec<Point>,
    pub uses: Vec<Use>,
}

/// From a vertex to the next one.
const STEP: i64 = 1300;

/// From a vertex to the middle of its name, and half of how wide a letter is at most.
const TO_NAME: i64 = 460;

const HALF_LETTER: i64 = 80;

pub(crate) fn graph_plan(
    alloc: Global,
    game: &Game,
    names: &[Vec<u8>],
    edges: &[Edge],
    wishes: &Wishes<'_>,
) -> Result<Plan, AllocError> {
    let graph = Graph {
        count: names.len(),
        longest: longest_of(names),
        edges,
    };
    if let Some(placing) = placed_by_comments(alloc, names, wishes)? {
        return plan_of_placing(alloc, graph, placing, false);
    }
    if let Some(placing) = placed_by_names(alloc, game, graph)? {
        return plan_of_placing(alloc, graph, placing, false);
    }
    if let Some(placing) = placed_by_way(alloc, game.directions(), graph)? {
        return plan_of_placing(alloc, graph, placing, false);
    }
    let placing = placed_by_number(alloc, graph)?;
    plan_of_placing(alloc, graph, placing, true)
}

fn plan_of_placing(
    alloc: Global,
    graph: Graph<'_>,
    placing: Placing,
    is_by_number: bool,
) -> Result<Plan, AllocError> {
    let lines = lines_of(alloc, graph, placing.uses.as_slice())?;
    let Placing { points, uses } = placing;
    Ok(Plan {
        shape: Shape::Round,
        points,
        is_by_number,
        dark: Vec::new(alloc),
        lines,
        labels: Vec::new(alloc),
        reach: steps(graph.longest, HALF_LETTER).saturating_add(TO_NAME),
        uses,
    })
}

/// The length of the longest name.
fn longest_of(names: &[Vec<u8>]) -> usize {
    let mut longest = 0usize;
    for name in names {
        longest = longest.max(name.len());
    }
    longest
}

/// The places that comments say, if they say those of all vertices.
fn placed_by_comments(
    alloc: Global,
    names: &[Vec<u8>],
    wishes: &Wishes<'_>,
) -> Result<Option<Placing>, AllocError> {
    let mut points = Vec::new(alloc);
    for name in names {
        match wishes.place_of(name) {
            Some(point) => points.push(point)?,
            None => return Ok(None),
        }
    }
    let uses = Vec::new(alloc);
    Ok(Some(Placing { points, uses }))
}

/// The places in rows that are about as wide as all of them are high.
fn placed_by_number(alloc: Global, graph: Graph<'_>) -> Result<Placing, AllocError> {
    let wide = graph.count.isqrt() + 1;
    let mut points = Vec::new(alloc);
    for vertex in 0..graph.count {
        points.push(Point {
            x: steps(vertex % wide, STEP),
            y: steps(vertex / wide, STEP),
        })?;
    }
    let uses = Vec::new(alloc);
    Ok(Placing { points, uses })
}

/// The ends of the edges whose direction is drawn, each line once.
fn lines_of(
    alloc: Global,
    graph: Graph<'_>,
    uses: &[Use],
) -> Result<Vec<(usize, usize)>, AllocError> {
    let mut lines = Vec::new(alloc);
    for edge in graph.edges {
        let is_drawn = matches!(use_of(uses, edge.direction), Use::Drawn);
        if is_drawn && edge.from != edge.to {
            lines.push((edge.from.min(edge.to), edge.from.max(edge.to)))?;
        }
    }
    lines.sort_unstable();
    lines.dedup();
    Ok(lines)
}

/// How the edges of a direction are drawn.
pub(crate) fn use_of(uses: &[Use], direction: usize) -> Use {
    uses.get(direction).copied().unwrap_or(Use::Drawn)
}
