//! The plans of rectangles and hexagons.

use crate::plan::{Label, Plan, Shape};
use crate::point::{Point, steps};
use crate::squares::Part;
use crate::wishes::Wishes;
use std::alloc::{AllocError, Global};

/// From a square to the next one of its row, and from a row of hexagons to the next one.
const STEP: i64 = 1000;

const LOW_STEP: i64 = 866;

/// Half of a square.
const HALF: i64 = 500;

/// From the first square of a row to the name of the row, and from the last row to the names of columns.
const BESIDE: i64 = 750;

/// How the rows of a board are placed.
#[derive(Clone, Copy)]
struct Form {
    /// From a row to the next one.
    step: i64,
    /// How far each row is to the right of the one above it.
    slant: i64,
    /// How far a row is to the right for each square that it has less than the longest.
    indent: i64,
}

const STRAIGHT: Form = Form {
    step: STEP,
    slant: 0,
    indent: 0,
};

const SLANTED: Form = Form {
    step: LOW_STEP,
    slant: HALF,
    indent: 0,
};

const CENTRED: Form = Form {
    step: LOW_STEP,
    slant: 0,
    indent: HALF,
};

impl Form {
    /// The first point of a row.
    fn first_of(self, rows: &[usize], row: usize, length: usize) -> Point {
        let missing = longest_of(rows).saturating_sub(length);
        let slant = steps(row, self.slant);
        Point {
            x: slant.saturating_add(steps(missing, self.indent)),
            y: steps(row, self.step),
        }
    }
}

/// The plan of a rectangle: a board of squares for two players is chequered.
pub(crate) fn rectangle_plan(
    alloc: Global,
    rows: &[usize],
    wishes: &Wishes<'_>,
    is_for_two: bool,
) -> Result<Plan, AllocError> {
    if wishes.is_slanted {
        return lettered_plan(alloc, rows, Shape::Hexagon, SLANTED);
    }
    if wishes.is_on_points {
        let mut plan = lettered_plan(alloc, rows, Shape::Crossing, STRAIGHT)?;
        push_grid(rows, &mut plan.lines)?;
        return Ok(plan);
    }
    let mut plan = lettered_plan(alloc, rows, Shape::Square, STRAIGHT)?;
    if is_for_two {
        push_chequers(rows, &mut plan.dark)?;
    }
    Ok(plan)
}

/// The plan of rows with numbers, from the lowest, and columns with letters.
fn lettered_plan(
    alloc: Global,
    rows: &[usize],
    shape: Shape,
    form: Form,
) -> Result<Plan, AllocError> {
    let mut plan = rows_plan(alloc, rows, shape, form)?;
    for row in 0..rows.len() {
        let at = form.first_of(rows, row, longest_of(rows)).moved(-BESIDE, 0);
        let name = Part::Number(rows.len().saturating_sub(row));
        plan.labels.push(Label { at, name })?;
    }
    let lowest = form.first_of(rows, rows.len().saturating_sub(1), longest_of(rows));
    for column in 0..longest_of(rows) {
        let at = lowest.moved(steps(column, STEP), BESIDE);
        let name = Part::Letters(column);
        plan.labels.push(Label { at, name })?;
    }
    Ok(plan)
}

/// The plan of a hexagon: the middle of each row is in the middle of the board, and its letter beside it.
pub(crate) fn hexagon_plan(alloc: Global, rows: &[usize]) -> Result<Plan, AllocError> {
    let mut plan = rows_plan(alloc, rows, Shape::Hexagon, CENTRED)?;
    for (row, length) in rows.iter().enumerate() {
        let at = CENTRED.first_of(rows, row, *length).moved(-BESIDE, 0);
        let level = rows.len().saturating_sub(row).saturating_sub(1);
        let name = Part::Letters(level);
        plan.labels.push(Label { at, name })?;
    }
    Ok(plan)
}

/// The plan of rows of this form, without what is between and beside the squares.
fn rows_plan(alloc: Global, rows: &[usize], shape: Shape, form: Form) -> Result<Plan, AllocError> {
    let mut points = Vec::new(alloc);
    for (row, length) in rows.iter().enumerate() {
        push_row(form.first_of(rows, row, *length), *length, &mut points)?;
    }
    Ok(Plan {
        shape,
        points,
        is_by_number: false,
        dark: Vec::new(alloc),
        lines: Vec::new(alloc),
        labels: Vec::new(alloc),
        reach: 0,
        uses: Vec::new(alloc),
    })
}

/// Appends the points of a row with so many squares.
fn push_row(first: Point, length: usize, points: &mut Vec<Point>) -> Result<(), AllocError> {
    for column in 0..length {
        points.push(first.moved(steps(column, STEP), 0))?;
    }
    Ok(())
}

fn longest_of(rows: &[usize]) -> usize {
    let mut longest = 0usize;
    for length in rows {
        longest = longest.max(*length);
    }
    longest
}

/// Appends whether each square is dark, beginning with a light one.
fn push_chequers(rows: &[usize], dark: &mut Vec<bool>) -> Result<(), AllocError> {
    for (row, length) in rows.iter().enumerate() {
        for column in 0..*length {
            dark.push(row % 2 != column % 2)?;
        }
    }
    Ok(())
}

/// Appends the lines between neighbours of a rectangle.
fn push_grid(rows: &[usize], lines: &mut Vec<(usize, usize)>) -> Result<(), AllocError> {
    let mut start = 0usize;
    let mut above = 0usize;
    for length in rows {
        for column in 0..*length {
            let square = start.saturating_add(column);
            if column > 0 {
                lines.push((square.saturating_sub(1), square))?;
            }
            if column < above {
                lines.push((square.saturating_sub(above), square))?;
            }
        }
        start = start.saturating_add(*length);
        above = *length;
    }
    Ok(())
}
