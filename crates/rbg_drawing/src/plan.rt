//! Where the squares of a board are, and what is drawn between and beside them.

use crate::edges::Edge;
use crate::graph::graph_plan;
use crate::point::Point;
use crate::rows::{hexagon_plan, rectangle_plan};
use crate::squares::Part;
use crate::wishes::Wishes;
use rbg_game::{Layout, LoadedGame};
use std::alloc::{AllocError, Global};

/// What a square looks like.
#[derive(Clone, Copy)]
pub(crate) enum Shape {
    Square,
    Hexagon,
    /// The crossing of two lines.
    Crossing,
    /// A vertex of a graph.
    Round,
}

/// A name beside the board: that of a row or a column.
#[derive(Clone, Copy)]
pub(crate) struct Label {
    pub at: Point,
    pub name: Part,
}

/// How the edges of a direction are drawn.
#[derive(Clone, Copy)]
pub(crate) enum Use {
    Drawn,
    Hidden,
    /// They lead to other floors and are hidden.
    ToFloor,
}

/// Where the squares of a board are, and what is drawn between and beside them.
#[derive(Drop)]
pub(crate) struct Plan {
    pub shape: Shape,
    /// The middle of each square.
    pub points: Vec<Point>,
    /// Whether the points follow from numbers alone, since nothing says how the vertices are to be placed.
    pub is_by_number: bool,
    /// Whether each square is dark; it is empty if none is.
    pub dark: Vec<bool>,
    /// The squares between which there are lines.
    pub lines: Vec<(usize, usize)>,
    pub labels: Vec<Label>,
    /// How far the names of vertices reach to the right of these.
    pub reach: i64,
    /// How the edges of each direction are drawn; it is empty if all are drawn.
    pub uses: Vec<Use>,
}

/// How far a drawing reaches.
#[derive(Clone, Copy)]
pub(crate) struct Frame {
    pub low: Point,
    pub high: Point,
}

/// The room around the middles of squares, around those of vertices with their names, and around labels.
const ROOM: i64 = 600;

const ROOM_OF_VERTEX: i64 = 800;

const ROOM_OF_LABEL: i64 = 200;

/// The plan of a game's board, as the comment lines of its text wish it.
pub(crate) fn plan_of(
    alloc: Global,
    loaded: &LoadedGame,
    wishes: &Wishes<'_>,
    edges: &[Edge],
) -> Result<Plan, AllocError> {
    match &loaded.layout {
        Layout::Rectangle { rows } => {
            let is_for_two = loaded.game.players() == 2;
            rectangle_plan(alloc, rows, wishes, is_for_two)
        }
        Layout::Hexagon { rows } => hexagon_plan(alloc, rows),
        Layout::Graph { names } => graph_plan(alloc, &loaded.game, names, edges, wishes),
    }
}

impl Plan {
    /// The frame of the squares and the labels.
    pub(crate) fn frame(&self) -> Frame {
        let first = self.points.first().copied().unwrap_or(ORIGIN);
        let mut frame = Frame {
            low: first,
            high: first,
        };
        let room = match self.shape {
            Shape::Round => ROOM_OF_VERTEX,
            _ => ROOM,
        };
        for point in &self.points {
            frame = frame.widened(*point, room);
            frame.high.x = frame.high.x.max(point.x.saturating_add(self.reach));
        }
        for label in &self.labels {
            frame = frame.widened(label.at, ROOM_OF_LABEL);
        }
        frame
    }
}

const ORIGIN: Point = Point { x: 0, y: 0 };

impl Frame {
    /// The frame that holds also what is around a point.
    fn widened(self, point: Point, room: i64) -> Frame {
        Frame {
            low: Point {
                x: self.low.x.min(point.x.saturating_sub(room)),
                y: self.low.y.min(point.y.saturating_sub(room)),
            },
            high: Point {
                x: self.high.x.max(point.x.saturating_add(room)),
                y: self.high.y.max(point.y.saturating_add(room)),
            },
        }
    }

    pub(crate) fn width(&self) -> i64 {
        self.high.x.saturating_sub(self.low.x)
    }

    pub(crate) fn height(&self) -> i64 {
        self.high.y.saturating_sub(self.low.y)
    }
}
