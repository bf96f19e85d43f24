//! Where each direction leads in a drawing, and arrows.

use crate::edges::Edge;
use crate::plan::Plan;
use crate::point::{Point, Way, length_of, push_point};
use std::alloc::AllocError;

/// How much alike the ways of a direction are if it is drawn as one arrow: 1000 if all are the same.
const ALIKE: i64 = 900;

/// How long the head of an arrow is, and half of how wide.
const HEAD: i64 = 220;

const HALF_HEAD: i64 = 110;

/// Where a direction leads in a drawing.
#[derive(Clone, Copy)]
pub(crate) enum Course {
    /// Nowhere.
    Nowhere,
    /// From each square about the same way.
    Straight { way: Way },
    /// From each square another way.
    Winding,
}

/// Where a direction leads in a plan.
pub(crate) fn course_of(plan: &Plan, edges: &[Edge], direction: usize) -> Course {
    let mut right = 0i64;
    let mut down = 0i64;
    let mut all = 0i64;
    for edge in edges {
        if edge.direction == direction
            && let Some((from, to)) = ends_of(plan, edge)
            && let Some(way) = from.way_to(to)
        {
            right = right.saturating_add(way.right);
            down = down.saturating_add(way.down);
            all = all.saturating_add(ALIKE);
        }
    }
    let from = Point { x: 0, y: 0 };
    match from.way_to(from.moved(right, down)) {
        Some(way) if length_of(right, down) >= all => Course::Straight { way },
        _ if all > 0 => Course::Winding,
        _ => Course::Nowhere,
    }
}

/// The points of an edge's ends.
pub(crate) fn ends_of(plan: &Plan, edge: &Edge) -> Option<(Point, Point)> {
    let from = plan.points.get(edge.from)?;
    let to = plan.points.get(edge.to)?;
    Some((*from, *to))
}

/// Appends an arrow of a colour between two points, along a way.
pub(crate) fn push_arrow(
    from: Point,
    to: Point,
    way: Way,
    colour: &[u8],
    out: &mut Vec<u8>,
) -> Result<(), AllocError> {
    let neck = to.along(way, -HEAD);
    let aside = way.turned();
    push_point(b"<path d=\"M", from, out)?;
    push_point(b"L", neck, out)?;
    push_point(b"M", to, out)?;
    push_point(b"L", neck.along(aside, HALF_HEAD), out)?;
    push_point(b"L", neck.along(aside, -HALF_HEAD), out)?;
    out.extend_from_slice(b"Z\" fill=\"")?;
    out.extend_from_slice(colour)?;
    out.extend_from_slice(b"\" stroke=\"")?;
    out.extend_from_slice(colour)?;
    out.extend_from_slice(b"\" stroke-width=\".5\"/>\n")
}
