//! Laws of boards and their edges. Each function's contract is a law over the definitions; its body does nothing.
ghost use Rattle.std.specs.Prelude.{◌≡◌};
ghost use Rattle.rbg_board.specs.Limits.{most_vertices};
ghost use Rattle.rbg_board.specs.Laws.{RectanglesLeadOneWay, HexagonsLeadOneWay, GraphsLeadOneWay, RectanglesLeadBack, HexagonsLeadBack};

use crate::MAX_VERTICES;

/// The limit is the number that the definitions state.
pub fn limits_are_as_stated()
    ensures { MAX_VERTICES ≡ most_vertices }
{}

/// A vertex of a rectangle has at most one edge in a direction.
pub fn rectangles_lead_one_way()
    ensures { RectanglesLeadOneWay }
{}

/// A vertex of a hexagon has at most one edge in a direction.
pub fn hexagons_lead_one_way()
    ensures { HexagonsLeadOneWay }
{}

/// A vertex of a written graph has at most one edge in a direction.
pub fn graphs_lead_one_way()
    ensures { GraphsLeadOneWay }
{}

/// Every edge of a rectangle has its way back, in the direction of the opposite side.
pub fn rectangles_lead_back()
    ensures { RectanglesLeadBack }
{}

/// Every edge of a hexagon has its way back, in the opposite direction.
pub fn hexagons_lead_back()
    ensures { HexagonsLeadBack }
{}
