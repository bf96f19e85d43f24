//! Places of a board's cells, and the ways from one to the next.
ghost use Rattle.std.specs.Prelude.{◌≡◌, ◌+◌, ◌==◌};
ghost use Rattle.rbg_import.specs.Geometry.{leads as leads_along};

/// The place of a cell of a board.
#[derive(Clone, Copy)]
pub(crate) struct Place {
    /// The number of the cell in its row, from 0.
    pub x: usize,
    /// The number of the row in its layer, from 0.
    pub y: usize,
    /// The number of the layer, from 0.
    pub z: usize,
}

/// A way from a cell to the next one.
#[derive(Clone, Copy)]
pub(crate) enum Way {
    RowBefore,
    RowAfter,
    CellBefore,
    CellAfter,
    LayerBefore,
    LayerAfter,
}

/// The ways, in the order in which a board names its directions. A board without layers has the first four.
pub(crate) const WAYS: [Way; 6] = [
    Way::RowBefore,
    Way::RowAfter,
    Way::CellBefore,
    Way::CellAfter,
    Way::LayerBefore,
    Way::LayerAfter,
];

impl Way {
    /// Whether the way leads from one place to the other.
    pub fn leads(self, from: Place, to: Place) -> bool
        ensures { result ≡ leads_along self from to }
    {
        match self {
            Way::RowBefore => follows(to.y, from.y) && from.x == to.x && from.z == to.z,
            Way::RowAfter => follows(from.y, to.y) && from.x == to.x && from.z == to.z,
            Way::CellBefore => follows(to.x, from.x) && from.y == to.y && from.z == to.z,
            Way::CellAfter => follows(from.x, to.x) && from.y == to.y && from.z == to.z,
            Way::LayerBefore => follows(to.z, from.z) && from.x == to.x && from.y == to.y,
            Way::LayerAfter => follows(from.z, to.z) && from.x == to.x && from.y == to.y,
        }
    }
}

/// Whether the second number is the next one after the first.
fn follows(before: usize, after: usize) -> bool
    ensures { result ≡ after == before + 1 }
{
    before < after && after - before == 1
}
