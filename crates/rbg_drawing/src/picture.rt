//! The picture of an empty board: its squares with numbers and names, its lines, and its directions.

use crate::arrow::{Course, course_of, ends_of, push_arrow};
use crate::edges::{Edge, edges_of};
use crate::graph::use_of;
use crate::plan::{Plan, Shape, Use, plan_of};
use crate::point::{Point, Way, push_length, push_point, steps};
use crate::squares::{push_part, push_square};
use crate::wishes::Wishes;
use rbg_base::Direction;
use rbg_game::{Game, Layout, LoadedGame};
use rbg_wire::write_number;
use std::alloc::{AllocError, Global};

/// The colour of straight directions in the list, and those of the others.
const STRAIGHT: &[u8] = b"#2a5d9c";

const WINDING: [&[u8]; 6] = [
    b"#c8382b", b"#2f62b5", b"#2c8439", b"#7b3fa0", b"#b85c00", b"#0f7676",
];

/// From the board to the list of directions, and from one of them to the next one.
const BESIDE: i64 = 600;

const LINE: i64 = 650;

/// How long an arrow of the list is, the room for it, and where the name begins.
const ARROW: i64 = 500;

const ROOM: i64 = 600;

const NAME: i64 = 900;

/// How wide a letter of the list is at most, and what is beside the names.
const LETTER: i64 = 240;

const MARGIN: i64 = 200;

/// From the middle of a square to the ends of arrows between squares, and how far these are beside the middle.
const RIM: i64 = 390;

const ASIDE: i64 = 90;

/// How texts look: the rest of their tags. A name may be drawn over a line.
const OF_NUMBER: &[u8] = b"\" font-size=\"3.2\" fill=\"#222\">";

const OF_NAME: &[u8] =
    b"\" font-size=\"2.2\" fill=\"#5a4a2a\" stroke=\"#fff\" stroke-opacity=\".6\" stroke-width=\".6\" paint-order=\"stroke\">";

const OF_LABEL: &[u8] = b"\" font-size=\"2.6\" fill=\"#666\">";

const OF_DIRECTION: &[u8] = b"\" font-size=\"3.6\" fill=\"#222\" text-anchor=\"start\">";

/// What follows the size.
const HEAD: &[u8] =
    b"\" font-family=\"DejaVu Sans, Verdana, sans-serif\" text-anchor=\"middle\" role=\"img\" aria-label=\"the empty board: its squares with their numbers and names, and its directions\">\n";

const TO_THE_RIGHT: Way = Way {
    right: 1000,
    down: 0,
};

/// What is drawn.
#[derive(Clone, Copy)]
struct Drawn<'a> {
    game: &'a Game,
    layout: &'a Layout,
    plan: &'a Plan,
    edges: &'a [Edge],
}

/// How squares look: the tag of their ground without its end, and where their number and their name are.
#[derive(Clone, Copy)]
struct Looks {
    ground: &'static [u8],
    number: Point,
    name: Point,
}

/// Appends an SVG of a game's empty board: each square with its number and its name, the lines between them, and a list of
/// the directions with arrows.
pub fn push_picture(
    alloc: Global,
    loaded: &LoadedGame,
    text: &[u8],
    out: &mut Vec<u8>,
) -> Result<(), AllocError> {
    let edges = edges_of(alloc, &loaded.game)?;
    let wishes = Wishes::read(alloc, text)?;
    let plan = plan_of(alloc, loaded, &wishes, edges.as_slice())?;
    let drawn = Drawn {
        game: &loaded.game,
        layout: &loaded.layout,
        plan: &plan,
        edges: edges.as_slice(),
    };
    drawn.push_head(out)?;
    drawn.push_lines(out)?;
    drawn.push_windings(out)?;
    drawn.push_labels(out)?;
    drawn.push_squares(out)?;
    drawn.push_directions(out)?;
    out.extend_from_slice(b"</svg>\n")
}

impl Drawn<'_> {
    /// The beginning, with the size, and the ground.
    fn push_head(&self, out: &mut Vec<u8>) -> Result<(), AllocError> {
        let frame = self.plan.frame();
        let width = frame.width().saturating_add(self.width_of_list());
        let list = steps(self.game.directions(), LINE).saturating_add(LINE);
        let height = frame.height().max(list);
        push_point(
            b"<svg xmlns=\"http://www.w3.org/2000/svg\" viewBox=\"",
            frame.low,
            out,
        )?;
        push_length(b" ", width, out)?;
        push_length(b" ", height, out)?;
        push_length(b"\" width=\"", width.saturating_mul(4), out)?;
        push_length(b"\" height=\"", height.saturating_mul(4), out)?;
        out.extend_from_slice(HEAD)?;
        push_length(b"<rect x=\"", frame.low.x, out)?;
        push_length(b"\" y=\"", frame.low.y, out)?;
        out.extend_from_slice(b"\" width=\"100%\" height=\"100%\" rx=\"1.5\" fill=\"#fff\"/>\n")
    }

    /// How wide the list of directions is, by its longest name.
    fn width_of_list(&self) -> i64 {
        let mut longest = 0usize;
        for direction in 0..self.game.directions() {
            let name = self.game.direction_name(direction as Direction);
            longest = longest.max(name.len());
        }
        steps(longest, LETTER).saturating_add(BESIDE + NAME + MARGIN)
    }

    /// The lines between squares.
    fn push_lines(&self, out: &mut Vec<u8>) -> Result<(), AllocError> {
        out.extend_from_slice(b"<path d=\"")?;
        for (from, to) in &self.plan.lines {
            if let Some(from) = self.plan.points.get(*from)
                && let Some(to) = self.plan.points.get(*to)
            {
                push_point(b"M", *from, out)?;
                push_point(b"L", *to, out)?;
            }
        }
        out.extend_from_slice(b"\" fill=\"none\" stroke=\"#84714c\" stroke-width=\".35\"/>\n")
    }

    /// The edges of the directions that don't lead the same way from each square, as arrows.
    fn push_windings(&self, out: &mut Vec<u8>) -> Result<(), AllocError> {
        for direction in 0..self.game.directions() {
            if matches!(self.course(direction), Course::Winding) {
                self.push_edges(direction, colour_of(direction), out)?;
            }
        }
        Ok(())
    }

    /// Where a direction leads. One that leads to other floors is drawn nowhere.
    fn course(&self, direction: usize) -> Course {
        match use_of(&self.plan.uses, direction) {
            Use::ToFloor => Course::Nowhere,
            _ => course_of(self.plan, self.edges, direction),
        }
    }

    /// The names of rows and columns.
    fn push_labels(&self, out: &mut Vec<u8>) -> Result<(), AllocError> {
        for label in &self.plan.labels {
            push_text_head(label.at.moved(0, 94), OF_LABEL, out)?;
            push_part(label.name, out)?;
            out.extend_from_slice(b"</text>\n")?;
        }
        Ok(())
    }

    fn push_squares(&self, out: &mut Vec<u8>) -> Result<(), AllocError> {
        let looks = looks_of(self.plan.shape);
        for (vertex, point) in self.plan.points.iter().enumerate() {
            push_point(b"<g transform=\"translate(", *point, out)?;
            out.extend_from_slice(b")\">")?;
            self.push_square(vertex, looks, out)?;
            out.extend_from_slice(b"</g>\n")?;
        }
        Ok(())
    }

    /// A square around the first point of all: its ground, its number and its name.
    fn push_square(
        &self,
        vertex: usize,
        looks: Looks,
        out: &mut Vec<u8>,
    ) -> Result<(), AllocError> {
        out.extend_from_slice(looks.ground)?;
        out.extend_from_slice(match self.plan.dark.get(vertex) {
            Some(true) => b" fill=\"#d3b083\"".as_slice(),
            _ => b" fill=\"#f0e2c4\"",
        })?;
        out.extend_from_slice(b" stroke=\"#84714c\" stroke-width=\".25\"/>")?;
        push_text_head(looks.number, OF_NUMBER, out)?;
        write_number(vertex as u64, out)?;
        out.extend_from_slice(b"</text>")?;
        push_text_head(looks.name, OF_NAME, out)?;
        // (a name has letters, digits and underlines alone)
        push_square(self.layout, vertex, out)?;
        out.extend_from_slice(b"</text>")
    }

    /// The list of the directions, in the order of the description.
    fn push_directions(&self, out: &mut Vec<u8>) -> Result<(), AllocError> {
        let frame = self.plan.frame();
        let first = Point {
            x: frame.high.x.saturating_add(BESIDE),
            y: frame.low.y.saturating_add(LINE),
        };
        for direction in 0..self.game.directions() {
            let at = first.moved(0, steps(direction, LINE));
            self.push_direction(direction, at, out)?;
            push_text_head(at.moved(NAME, 130), OF_DIRECTION, out)?;
            let name = self.game.direction_name(direction as Direction);
            out.extend_from_slice(name.as_bytes())?;
            out.extend_from_slice(b"</text>\n")?;
        }
        Ok(())
    }

    /// An arrow along a direction, or one of the colour of its edges.
    fn push_direction(
        &self,
        direction: usize,
        at: Point,
        out: &mut Vec<u8>,
    ) -> Result<(), AllocError> {
        if matches!(use_of(&self.plan.uses, direction), Use::ToFloor) {
            push_text_head(at.moved(ROOM / 2, 94), OF_LABEL, out)?;
            return out.extend_from_slice(b"floor</text>\n");
        }
        match self.course(direction) {
            Course::Nowhere => Ok(()),
            Course::Straight { way } => push_sample(at, way, STRAIGHT, out),
            Course::Winding => push_sample(at, TO_THE_RIGHT, colour_of(direction), out),
        }
    }

    /// The edges of a direction as arrows of a colour.
    fn push_edges(
        &self,
        direction: usize,
        colour: &[u8],
        out: &mut Vec<u8>,
    ) -> Result<(), AllocError> {
        for edge in self.edges {
            if edge.direction == direction {
                self.push_edge(edge, colour, out)?;
            }
        }
        Ok(())
    }

    /// An edge as an arrow, somewhat to the left of its way.
    fn push_edge(&self, edge: &Edge, colour: &[u8], out: &mut Vec<u8>) -> Result<(), AllocError> {
        if let Some((from, to)) = ends_of(self.plan, edge)
            && let Some(way) = from.way_to(to)
        {
            let from = from.along(way, RIM).along(way.turned(), ASIDE);
            let to = to.along(way, -RIM).along(way.turned(), ASIDE);
            return push_arrow(from, to, way, colour, out);
        }
        Ok(())
    }
}

/// The colour of a direction that doesn't lead the same way from each square.
fn colour_of(direction: usize) -> &'static [u8] {
    WINDING.get(direction % 6).copied().unwrap_or(STRAIGHT)
}

/// Appends an arrow that leads a way, in the middle of its place in the list.
fn push_sample(at: Point, way: Way, colour: &[u8], out: &mut Vec<u8>) -> Result<(), AllocError> {
    let from = at.moved(ROOM / 2, 0).along(way, -ARROW / 2);
    push_arrow(from, from.along(way, ARROW), way, colour, out)
}

fn looks_of(shape: Shape) -> Looks {
    match shape {
        Shape::Square => Looks {
            ground: b"<path d=\"M-5-5H5V5H-5Z\"",
            number: Point { x: 0, y: 35 },
            name: Point { x: 0, y: 360 },
        },
        Shape::Hexagon => Looks {
            ground: b"<path d=\"M0-5.77 5-2.89 5 2.89 0 5.77-5 2.89-5-2.89Z\"",
            number: Point { x: 0, y: 35 },
            name: Point { x: 0, y: 360 },
        },
        Shape::Crossing => Looks {
            ground: b"<circle r=\"3.6\"",
            number: Point { x: 0, y: 115 },
            name: Point { x: 260, y: 540 },
        },
        Shape::Round => Looks {
            ground: b"<circle r=\"3.6\"",
            number: Point { x: 0, y: 115 },
            name: Point { x: 460, y: 560 },
        },
    }
}

/// Appends the beginning of a text's tag, with the middle of its base line, and how it looks.
fn push_text_head(at: Point, look: &[u8], out: &mut Vec<u8>) -> Result<(), AllocError> {
    push_length(b"<text x=\"", at.x, out)?;
    push_length(b"\" y=\"", at.y, out)?;
    out.extend_from_slice(look)
}
