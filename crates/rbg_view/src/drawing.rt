//! How a board is drawn, and the calls that write the drawing at the end of a list of bytes.
ghost use Rattle.std.specs.Prelude.{◌≡◌, ◌<◌, ◌++◌, OnOk, All, length};
ghost use Rattle.rbg_game.specs.NameTables.{bytes_of};
ghost use Rattle.rbg_view.specs.Boards.{drawing_text, frame_text, graph_text, is_marked, label_text, labels_text, mark_text, rows_text, size_text, spot_from, spot_text, vertex_text, vertices_text, widest};

use crate::texts::{put_escaped, put_field};
use rbg_base::{Memory, Pair, Piece};
use rbg_game::Layout;
use rbg_rules::Game;

/// What is drawn on a board: the piece on each vertex, and which vertices are marked.
#[derive(Clone, Copy)]
struct Drawn<'a> {
    game: &'a Game,
    /// The vertices of these pairs are marked.
    marked: &'a [Pair],
    standing: &'a [Piece],
}

/// A cell of a rectangle, of a hexagon and of a graph.
const SQUARE: &[u8] = b"<path id='cell' d='M-5-5h10v10h-10z'/>";

const SIX_SIDES: &[u8] = b"<path id='cell' d='M0-5.77 5-2.89 5 2.89 0 5.77-5 2.89-5-2.89z'/>";

const ROUND: &[u8] = b"<circle id='cell' r='5'/>";

/// Where a vertex lies.
#[derive(Clone, Copy)]
struct Spot {
    column: usize,
    row: usize,
    /// How many vertices the row has.
    length: usize,
}

impl Spot {
    /// The spot of a vertex in rows of these lengths.
    fn of(lengths: &[usize], vertex: usize) -> Spot
        ensures { result ≡ spot_from 0 lengths.now vertex }
    {
        let mut column = vertex;
        for (row, length) in lengths.iter().enumerate() {
            if column < *length {
                return Spot {
                    column,
                    row,
                    length: *length,
                };
            }
            column -= *length;
        }
        Spot {
            column,
            row: lengths.len(),
            length: 0,
        }
    }
}

/// The greatest of these lengths.
fn widest_of(lengths: &[usize]) -> usize
    ensures { result ≡ widest lengths.now }
{
    let mut most = 0usize;
    for length in lengths {
        most = most.max(*length);
    }
    most
}

/// Whether one of these pairs is on the vertex.
fn is_marked_at(pairs: &[Pair], vertex: usize) -> bool
    ensures { result ≡ is_marked pairs.now vertex }
{
    pairs.iter().any(|pair| pair.vertex as usize == vertex)
}

/// Appends the drawing of a board with these pieces on its vertices, and with the vertices of these pairs marked.
pub(crate) fn put_drawing(
    game: &Game,
    layout: &Layout,
    marked: &[Pair],
    standing: &[Piece],
    out: &mut Vec<u8>,
) -> Result<(), Memory>
    requires { All (λ piece. piece < length game.now.pieces) standing.now }
    ensures { OnOk result (out.new.items ≡ out.old.items
        ++ drawing_text layout.now game.now.pieces marked.now standing.now) }
{
    let drawn = Drawn {
        game,
        marked,
        standing,
    };
    match layout {
        Layout::Rectangle { rows } => put_rows(b"square", SQUARE, &drawn, rows, out),
        Layout::Hexagon { rows } => put_rows(b"hexagon", SIX_SIDES, &drawn, rows, out),
        Layout::Graph { names } => put_graph(&drawn, names, out),
    }
}

/// Appends a frame of this kind with this cell, and the vertices in their rows.
fn put_rows(
    kind: &[u8],
    cell: &[u8],
    drawn: &Drawn<'_>,
    lengths: &[usize],
    out: &mut Vec<u8>,
) -> Result<(), Memory>
    requires { All (λ piece. piece < length drawn.now.game.now.pieces) drawn.now.standing.now }
    ensures { OnOk result (out.new.items ≡ out.old.items
        ++ rows_text kind.now cell.now drawn.now.game.now.pieces lengths.now drawn.now.marked.now
        drawn.now.standing.now) }
{
    let width = widest_of(lengths);
    put_frame(kind, width, lengths.len(), cell, out)?;
    put_vertices(drawn, lengths, out)?;
    Ok(())
}

fn put_graph(drawn: &Drawn<'_>, names: &[Vec<u8>], out: &mut Vec<u8>) -> Result<(), Memory>
    requires { All (λ piece. piece < length drawn.now.game.now.pieces) drawn.now.standing.now }
    ensures { OnOk result (out.new.items ≡ out.old.items
        ++ graph_text drawn.now.game.now.pieces names.now drawn.now.marked.now
        drawn.now.standing.now) }
{
    let count = names.len();
    put_frame(b"graph", count, count, ROUND, out)?;
    put_vertices(drawn, &[count], out)?;
    put_labels(names, out)?;
    Ok(())
}

fn put_frame(
    kind: &[u8],
    width: usize,
    height: usize,
    cell: &[u8],
    out: &mut Vec<u8>,
) -> Result<(), Memory>
    ensures { OnOk result (out.new.items ≡ out.old.items
        ++ frame_text kind.now width height cell.now) }
{
    out.extend_from_slice(b"<svg id='board' class='")?;
    out.extend_from_slice(kind)?;
    put_size(width, height, out)?;
    out.extend_from_slice(b"0'><defs>")?;
    out.extend_from_slice(cell)?;
    out.extend_from_slice(b"</defs>\n")?;
    Ok(())
}

#[tactic(auto, unfolding(crate::specs::Boards::size_text))]
fn put_size(width: usize, height: usize, out: &mut Vec<u8>) -> Result<(), Memory>
    ensures { OnOk result (out.new.items ≡ out.old.items ++ size_text width height) }
{
    put_field(b"' style='--w:", width as u64, out)?;
    put_field(b"' viewBox='0 0 ", width as u64, out)?;
    put_field(b"0 ", height as u64, out)
}

fn put_vertices(drawn: &Drawn<'_>, lengths: &[usize], out: &mut Vec<u8>) -> Result<(), Memory>
    requires { All (λ piece. piece < length drawn.now.game.now.pieces) drawn.now.standing.now }
    ensures { OnOk result (out.new.items ≡ out.old.items
        ++ vertices_text drawn.now.game.now.pieces lengths.now drawn.now.marked.now
        drawn.now.standing.now) }
{
    for (vertex, piece) in drawn.standing.iter().enumerate() {
        let name = drawn.game.piece_name(*piece).as_bytes();
        let spot = Spot::of(lengths, vertex);
        let is_marked = is_marked_at(drawn.marked, vertex);
        put_vertex(name, spot, is_marked, *piece, out)?;
    }
    Ok(())
}

/// Appends a vertex with the piece of this name on it.
fn put_vertex(
    name: &[u8],
    spot: Spot,
    is_marked: bool,
    piece: Piece,
    out: &mut Vec<u8>,
) -> Result<(), Memory>
    ensures { OnOk result (out.new.items ≡ out.old.items
        ++ vertex_text name.now spot is_marked piece) }
{
    put_spot(spot, piece, out)?;
    put_escaped(name, out)?;
    put_mark(is_marked, out)?;
    out.extend_from_slice(b"<use href='#cell'/><circle r='4'/><text>")?;
    put_escaped(name, out)?;
    out.extend_from_slice(b"</text></g>\n")?;
    Ok(())
}

fn put_spot(spot: Spot, piece: Piece, out: &mut Vec<u8>) -> Result<(), Memory>
    ensures { OnOk result (out.new.items ≡ out.old.items ++ spot_text spot piece) }
{
    put_field(b"<g style='--x:", spot.column as u64, out)?;
    put_field(b";--y:", spot.row as u64, out)?;
    put_field(b";--l:", spot.length as u64, out)?;
    put_field(b";--p:", u64::from(piece), out)?;
    out.extend_from_slice(b"' data-piece='")?;
    Ok(())
}

fn put_mark(is_marked: bool, out: &mut Vec<u8>) -> Result<(), Memory>
    ensures { OnOk result (out.new.items ≡ out.old.items ++ mark_text is_marked) }
{
    if is_marked {
        out.extend_from_slice(b"' class='marked'>")
    } else {
        out.extend_from_slice(b"'>")
    }
}

fn put_labels(names: &[Vec<u8>], out: &mut Vec<u8>) -> Result<(), Memory>
    ensures { OnOk result (out.new.items ≡ out.old.items ++ labels_text (bytes_of names.now)) }
{
    for (vertex, name) in names.iter().enumerate() {
        put_label(vertex, name, out)?;
    }
    Ok(())
}

#[tactic(auto, unfolding(crate::specs::Boards::label_text))]
fn put_label(vertex: usize, name: &[u8], out: &mut Vec<u8>) -> Result<(), Memory>
    ensures { OnOk result (out.new.items ≡ out.old.items ++ label_text (vertex, name.now)) }
{
    put_field(b"<g class='label' style='--x:", vertex as u64, out)?;
    out.extend_from_slice(b"'><text y='6.5'>")?;
    put_escaped(name, out)?;
    out.extend_from_slice(b"</text></g>\n")
}
