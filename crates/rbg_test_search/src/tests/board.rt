//! The boards of the random games: their text, and their vertices and edges once more.
use rbg_base::{Direction, Piece, Vertex};
use std::alloc::AllocError;

/// The most vertices that a board has here.
pub(crate) const MOST_VERTICES: usize = 200;

/// A small board as its description says it, and as a graph.
pub(crate) struct Small {
    text: &'static str,
    /// The first pieces of the vertices.
    first: &'static [Piece],
    /// Where each edge begins, its direction, and where it ends.
    edges: &'static [(Vertex, Direction, Vertex)],
}

/// A board.
#[derive(Clone, Copy)]
pub(crate) enum Board {
    Small(&'static Small),
    /// A ring of so many vertices. Right leads to the next one, up leads 63 further, and left and down lead back: from
    /// vertex 0 a few steps lead over the end of a word of 64 vertices. The last vertex holds a `w`, all others an `e`.
    Ring(Vertex),
}

/// How many vertices the rings have: around one word, two and three of 64 vertices.
const RINGS: [Vertex; 8] = [1, 63, 64, 65, 127, 128, 129, 200];

const UP: Direction = 0;

const DOWN: Direction = 1;

const LEFT: Direction = 2;

const RIGHT: Direction = 3;

static ROW_OF_TWO: Small = Small {
    text: "rectangle(up,down,left,right,[e,w])",
    first: &[0, 1],
    edges: &[(0, RIGHT, 1), (1, LEFT, 0)],
};

static ROW_OF_THREE: Small = Small {
    text: "rectangle(up,down,left,right,[e,e,w])",
    first: &[0, 0, 1],
    edges: &[(0, RIGHT, 1), (1, RIGHT, 2), (1, LEFT, 0), (2, LEFT, 1)],
};

static SQUARE: Small = Small {
    text: "rectangle(up,down,left,right,[e,e][e,w])",
    first: &[0, 0, 0, 1],
    edges: &[
        (0, RIGHT, 1),
        (2, RIGHT, 3),
        (1, LEFT, 0),
        (3, LEFT, 2),
        (0, DOWN, 2),
        (1, DOWN, 3),
        (2, UP, 0),
        (3, UP, 1),
    ],
};

/// Edges without a way back, two edges to one vertex, and an edge of a vertex to itself.
static GRAPH: Small = Small {
    text: "graph(a[e]{up:a,down:b,right:b} b[w]{right:c,left:a} c[e]{right:a})",
    first: &[0, 1, 0],
    edges: &[
        (0, UP, 0),
        (0, DOWN, 1),
        (0, RIGHT, 1),
        (1, RIGHT, 2),
        (1, LEFT, 0),
        (2, RIGHT, 0),
    ],
};

impl Small {
    /// Where the edge from a vertex in a direction ends, if there is one.
    fn step(&self, vertex: Vertex, direction: Direction) -> Option<Vertex> {
        for (from, along, to) in self.edges {
            if *from == vertex && *along == direction {
                return Some(*to);
            }
        }
        None
    }
}

/// Where the edge from a vertex of a ring in a direction ends.
fn step_in_ring(vertices: Vertex, vertex: Vertex, direction: Direction) -> Option<Vertex> {
    let up = 63u32.checked_rem(vertices)?;
    let forward = match direction {
        UP => up,
        DOWN => vertices.checked_sub(up)?,
        LEFT => vertices.checked_sub(1)?,
        _ => 1,
    };
    vertex.checked_add(forward)?.checked_rem(vertices)
}

impl Board {
    /// One of the small boards.
    pub(crate) fn small(number: u16) -> Board {
        Board::Small(match number % 4 {
            0 => &ROW_OF_TWO,
            1 => &ROW_OF_THREE,
            2 => &SQUARE,
            _ => &GRAPH,
        })
    }

    /// One of the rings.
    pub(crate) fn ring(number: u64) -> Board {
        Board::Ring(RINGS[(number % 8) as usize])
    }

    /// How many vertices there are.
    pub(crate) fn len(&self) -> usize {
        match self {
            Board::Small(small) => small.first.len(),
            Board::Ring(vertices) => *vertices as usize,
        }
    }

    /// The piece that a vertex holds first.
    pub(crate) fn first(&self, vertex: usize) -> Option<Piece> {
        match self {
            Board::Small(small) => small.first.get(vertex).copied(),
            Board::Ring(vertices) if vertex < *vertices as usize => {
                Some((vertex + 1 == *vertices as usize) as Piece)
            }
            Board::Ring(_) => None,
        }
    }

    /// Where the edge from a vertex in a direction ends, if there is one.
    pub(crate) fn step(&self, vertex: Vertex, direction: Direction) -> Option<Vertex> {
        match self {
            Board::Small(small) => small.step(vertex, direction),
            Board::Ring(vertices) => step_in_ring(*vertices, vertex, direction),
        }
    }

    /// Where the edge from a vertex of a ring in a direction ends.
    fn end(&self, vertex: Vertex, direction: Direction) -> Vertex {
        self.step(vertex, direction).unwrap_or(vertex)
    }

    /// Appends the text of the board.
    pub(crate) fn spell(&self, text: &mut String) -> Result<(), AllocError> {
        match self {
            Board::Small(small) => text.push_str(small.text),
            Board::Ring(vertices) => {
                text.push_str("graph(")?;
                for vertex in 0..*vertices {
                    self.spell_vertex(vertex, text)?;
                }
                text.push_str(")")
            }
        }
    }

    /// Appends the text of a vertex of a ring.
    fn spell_vertex(&self, vertex: Vertex, text: &mut String) -> Result<(), AllocError> {
        let piece = if self.first(vertex as usize) == Some(0) {
            "e"
        } else {
            "w"
        };
        let up = self.end(vertex, UP);
        let down = self.end(vertex, DOWN);
        let left = self.end(vertex, LEFT);
        let right = self.end(vertex, RIGHT);
        write!(
            text,
            " v{vertex}[{piece}]{{up:v{up},down:v{down},left:v{left},right:v{right}}}"
        )
    }
}
