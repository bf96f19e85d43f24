//! Examples of sections of boards. Each function's contract is an example; its body does nothing.
ghost use Rattle.rbg_position.specs.Examples.{GraphWithStones, RectangleWithStones};

/// Each row of a rectangle has a line with the pieces on its vertices.
pub fn rows_have_the_pieces_of_their_vertices()
    ensures { RectangleWithStones }
{}

/// Each vertex of a graph has a line too, and a vertex with the name of a piece keeps that name.
pub fn vertices_of_graphs_keep_their_names()
    ensures { GraphWithStones }
{}
