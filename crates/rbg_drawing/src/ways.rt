//! The places of a graph's vertices along a direction that leads through all of them.

use crate::graph::{Graph, Placing};
use crate::plan::Use;
use crate::point::{Point, steps};
use std::alloc::{AllocError, Global};

/// From a vertex to the next one, and how much a letter of its name needs.
const STEP: i64 = 1300;

const LETTER: i64 = 160;

/// What a name needs beside its letters.
const BESIDE: i64 = 300;

/// The fewest vertices of a way.
const FEWEST: usize = 3;

/// The vertices along a direction in order.
#[derive(Drop)]
struct WholeWay {
    vertices: Vec<usize>,
    /// Whether the last one leads to the first one.
    is_ring: bool,
}

/// In which column and row a vertex is.
#[derive(Clone, Copy)]
struct Cell {
    column: usize,
    row: usize,
}

/// The places along the first direction that leads through all vertices: around a rectangle if it leads back, else in rows
/// to and fro. None if there is no such direction.
pub(crate) fn placed_by_way(
    alloc: Global,
    directions: usize,
    graph: Graph<'_>,
) -> Result<Option<Placing>, AllocError> {
    if graph.count < FEWEST {
        return Ok(None);
    }
    for direction in 0..directions {
        if let Some(way) = way_along(alloc, graph, direction)? {
            let points = points_of(alloc, &way, step_of(graph))?;
            let uses = uses_of(alloc, directions, direction)?;
            return Ok(Some(Placing { points, uses }));
        }
    }
    Ok(None)
}

/// The edges of one direction are drawn.
fn uses_of(alloc: Global, directions: usize, drawn: usize) -> Result<Vec<Use>, AllocError> {
    let mut uses = Vec::new(alloc);
    for direction in 0..directions {
        uses.push(if direction == drawn {
            Use::Drawn
        } else {
            Use::Hidden
        })?;
    }
    Ok(uses)
}

/// The way through all vertices along a direction, if it leads through all.
fn way_along(
    alloc: Global,
    graph: Graph<'_>,
    direction: usize,
) -> Result<Option<WholeWay>, AllocError> {
    let ends = ends_along(alloc, graph, direction)?;
    let first = first_of(alloc, ends.as_slice())?;
    let mut is_met = flags(alloc, graph.count)?;
    let mut vertices = Vec::new(alloc);
    let mut next = Some(first);
    for _ in 0..graph.count {
        let Some(vertex) = next else {
            break;
        };
        if !meet(&mut is_met, vertex) {
            break;
        }
        vertices.push(vertex)?;
        next = ends.get(vertex).copied().flatten();
    }
    if vertices.len() < graph.count {
        return Ok(None);
    }
    Ok(Some(WholeWay {
        vertices,
        is_ring: next == Some(first),
    }))
}

/// Where a direction leads from each vertex.
fn ends_along(
    alloc: Global,
    graph: Graph<'_>,
    direction: usize,
) -> Result<Vec<Option<usize>>, AllocError> {
    let mut ends = Vec::new(alloc);
    for _ in 0..graph.count {
        ends.push(None)?;
    }
    for edge in graph.edges {
        if edge.direction == direction
            && edge.from != edge.to
            && let Some(end) = ends.get_mut(edge.from)
        {
            *end = Some(edge.to);
        }
    }
    Ok(ends)
}

/// The first vertex to which no edge leads, or vertex 0.
fn first_of(alloc: Global, ends: &[Option<usize>]) -> Result<usize, AllocError> {
    let mut is_end = flags(alloc, ends.len())?;
    for end in ends {
        if let Some(vertex) = end {
            meet(&mut is_end, *vertex);
        }
    }
    for (vertex, is_end) in is_end.iter().enumerate() {
        if !*is_end {
            return Ok(vertex);
        }
    }
    Ok(0)
}

/// So many flags that are down.
fn flags(alloc: Global, count: usize) -> Result<Vec<bool>, AllocError> {
    let mut flags = Vec::new(alloc);
    for _ in 0..count {
        flags.push(false)?;
    }
    Ok(flags)
}

/// Puts a flag up. Returns whether it was down.
fn meet(flags: &mut [bool], index: usize) -> bool {
    match flags.get_mut(index) {
        Some(flag) => !std::mem::replace(flag, true),
        None => false,
    }
}

/// The places of the vertices of a way, of which columns are so far apart.
fn points_of(alloc: Global, way: &WholeWay, step: i64) -> Result<Vec<Point>, AllocError> {
    let count = way.vertices.len();
    let mut points = Vec::new(alloc);
    for _ in 0..count {
        points.push(Point { x: 0, y: 0 })?;
    }
    for (index, vertex) in way.vertices.iter().enumerate() {
        let cell = if way.is_ring {
            cell_of_ring(index, count)
        } else {
            cell_of_rows(index, count)
        };
        if let Some(point) = points.get_mut(*vertex) {
            *point = Point {
                x: steps(cell.column, step),
                y: steps(cell.row, STEP),
            };
        }
    }
    Ok(points)
}

/// From a column to the next one, so that there is room for the names.
fn step_of(graph: Graph<'_>) -> i64 {
    STEP.max(steps(graph.longest, LETTER).saturating_add(BESIDE))
}

/// The cell of an index in rows to and fro.
fn cell_of_rows(index: usize, count: usize) -> Cell {
    let wide = (count.saturating_mul(8) / 5).isqrt().saturating_add(1);
    let along = index % wide;
    let row = index / wide;
    let column = if row % 2 == 0 {
        along
    } else {
        wide.saturating_sub(1).saturating_sub(along)
    };
    Cell { column, row }
}

/// The cell of an index around a rectangle, from its first cell to the right. The rectangle is wider than high.
fn cell_of_ring(index: usize, count: usize) -> Cell {
    let both = count.saturating_add(1) / 2 + 2;
    let high = (both.saturating_mul(2) / 5).max(2);
    let wide = both.saturating_sub(high);
    let last = Cell {
        column: wide.saturating_sub(1),
        row: high.saturating_sub(1),
    };
    if index < last.column {
        return Cell {
            column: index,
            row: 0,
        };
    }
    let down = index.saturating_sub(last.column);
    if down < last.row {
        return Cell {
            column: last.column,
            row: down,
        };
    }
    let back = down.saturating_sub(last.row);
    if back < last.column {
        return Cell {
            column: last.column.saturating_sub(back),
            row: last.row,
        };
    }
    let up = back.saturating_sub(last.column);
    Cell {
        column: 0,
        row: last.row.saturating_sub(up),
    }
}
