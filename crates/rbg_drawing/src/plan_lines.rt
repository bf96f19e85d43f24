//! The lines of a board's plan, for the script of a page.

use crate::edges::edges_of;
use crate::plan::{Label, Plan, Shape, plan_of};
use crate::point::{Point, push_length, push_point};
use crate::squares::{push_part, push_square};
use crate::wishes::Wishes;
use rbg_base::Piece;
use rbg_game::{Game, Layout, LoadedGame};
use rbg_wire::put_number;
use std::alloc::{AllocError, Global};

/// Appends the lines of how a game's board is drawn, as the comment lines of its text wish it: a `sign` for each piece that
/// they name, `squares` with their names, `shape`, `places`, `dark`, `lines` between squares, `labels` and `frame`. For a
/// graph whose vertices nothing places the last five aren't there.
pub fn push_plan(
    alloc: Global,
    loaded: &LoadedGame,
    text: &[u8],
    out: &mut Vec<u8>,
) -> Result<(), AllocError> {
    let edges = edges_of(alloc, &loaded.game)?;
    let wishes = Wishes::read(alloc, text)?;
    let plan = plan_of(alloc, loaded, &wishes, edges.as_slice())?;
    push_signs(&loaded.game, &wishes, out)?;
    push_squares(&loaded.layout, plan.points.len(), out)?;
    out.extend_from_slice(match plan.shape {
        Shape::Square => b"shape square\n".as_slice(),
        Shape::Hexagon => b"shape hexagon\n",
        Shape::Crossing => b"shape point\n",
        Shape::Round => b"shape round\n",
    })?;
    if plan.is_by_number {
        return Ok(());
    }
    push_places(&plan.points, out)?;
    push_dark(&plan.dark, out)?;
    push_lines(&plan.lines, out)?;
    push_labels(&plan.labels, out)?;
    push_frame(&plan, out)
}

fn push_signs(game: &Game, wishes: &Wishes<'_>, out: &mut Vec<u8>) -> Result<(), AllocError> {
    for piece in 0..game.pieces() {
        let name = game.piece_name(piece as Piece).as_bytes();
        if let Some(sign) = wishes.sign_of(name) {
            out.extend_from_slice(b"sign ")?;
            out.extend_from_slice(name)?;
            out.extend_from_slice(b" ")?;
            out.extend_from_slice(sign)?;
            out.extend_from_slice(b"\n")?;
        }
    }
    Ok(())
}

fn push_squares(layout: &Layout, count: usize, out: &mut Vec<u8>) -> Result<(), AllocError> {
    out.extend_from_slice(b"squares")?;
    for vertex in 0..count {
        out.push(b' ')?;
        push_square(layout, vertex, out)?;
    }
    out.extend_from_slice(b"\n")
}

fn push_places(points: &[Point], out: &mut Vec<u8>) -> Result<(), AllocError> {
    out.extend_from_slice(b"places")?;
    for point in points {
        push_point(b" ", *point, out)?;
    }
    out.extend_from_slice(b"\n")
}

fn push_dark(dark: &[bool], out: &mut Vec<u8>) -> Result<(), AllocError> {
    out.extend_from_slice(b"dark ")?;
    for is_dark in dark {
        out.push(if *is_dark { b'1' } else { b'0' })?;
    }
    out.extend_from_slice(b"\n")
}

fn push_lines(lines: &[(usize, usize)], out: &mut Vec<u8>) -> Result<(), AllocError> {
    out.extend_from_slice(b"lines")?;
    for (from, to) in lines {
        put_number(b" ", *from as u64, out)?;
        put_number(b" ", *to as u64, out)?;
    }
    out.extend_from_slice(b"\n")
}

fn push_labels(labels: &[Label], out: &mut Vec<u8>) -> Result<(), AllocError> {
    out.extend_from_slice(b"labels")?;
    for label in labels {
        push_point(b" ", label.at, out)?;
        out.push(b' ')?;
        push_part(label.name, out)?;
    }
    out.extend_from_slice(b"\n")
}

fn push_frame(plan: &Plan, out: &mut Vec<u8>) -> Result<(), AllocError> {
    let frame = plan.frame();
    push_point(b"frame ", frame.low, out)?;
    push_length(b" ", frame.width(), out)?;
    push_length(b" ", frame.height(), out)?;
    out.extend_from_slice(b"\n")
}
