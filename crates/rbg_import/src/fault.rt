//! What can't be rewritten.

use rbg_macro::Token;
use std::alloc::AllocError;

/// What can't be rewritten, and where it is.
#[derive(Clone, Copy)]
pub struct ImportFault {
    /// Its offset in the text.
    pub at: usize,
    /// How many bytes it has.
    pub len: usize,
    pub kind: FaultKind,
}

/// Why something can't be rewritten.
#[derive(Clone, Copy, PartialEq, Eq)]
pub enum FaultKind {
    /// The text is longer than a description may be.
    TooLong,
    /// A zero byte.
    ZeroByte,
    /// A byte begins no token.
    BadByte,
    /// A comment between marks doesn't end.
    OpenComment,
    /// A token of a board isn't what is needed there.
    Misfit,
    /// A macro is called in a board that would become a graph.
    MacroInBoard,
    /// A macro has a name that a vertex of a graph could have.
    VertexMacro,
    /// A row in a macro lacks a cell.
    HoleInMacro,
    /// A macro has a board of layers.
    CuboidInMacro,
    /// A row of another board than a rectangle lacks a cell.
    Hole,
    /// The graph would have more vertices than a board may have.
    TooManyVertices,
    /// The new text would be longer than a description may be.
    TooLongAfter,
}

impl FaultKind {
    /// The word for it in a report.
    pub fn code(self) -> &'static str {
        match self {
            FaultKind::TooLong => "TooLong",
            FaultKind::ZeroByte => "ZeroByte",
            FaultKind::BadByte => "BadByte",
            FaultKind::OpenComment => "OpenComment",
            FaultKind::Misfit => "Misfit",
            FaultKind::MacroInBoard => "MacroInBoard",
            FaultKind::VertexMacro => "VertexMacro",
            FaultKind::HoleInMacro => "HoleInMacro",
            FaultKind::CuboidInMacro => "CuboidInMacro",
            FaultKind::Hole => "Hole",
            FaultKind::TooManyVertices => "TooManyVertices",
            FaultKind::TooLongAfter => "TooLongAfter",
        }
    }

    /// The text of a report on it.
    pub fn words(self) -> &'static str {
        match self {
            FaultKind::TooLong => "the text is longer than a description may be",
            FaultKind::ZeroByte => "a text has no zero byte",
            FaultKind::BadByte => "no token begins with this byte",
            FaultKind::OpenComment => "the comment that begins with `/*` isn't closed",
            FaultKind::Misfit => {
                "the board isn't of a form that can be written as a graph: this token doesn't fit"
            }
            FaultKind::MacroInBoard => {
                "a board can't be written as a graph where it calls a macro: write out what the macro puts there"
            }
            FaultKind::VertexMacro => {
                "the vertices of a graph are named like this macro: give the macro another name"
            }
            FaultKind::HoleInMacro => {
                "a row of a macro lacks a cell: write out the rows in the board itself"
            }
            FaultKind::CuboidInMacro => {
                "a `cuboid` of a macro can't be written as a graph: write it in the board itself"
            }
            FaultKind::Hole => {
                "a row lacks a cell: this can be rewritten in a `rectangle` and a `cuboid` alone"
            }
            FaultKind::TooManyVertices => "the graph would have more than 4096 vertices",
            FaultKind::TooLongAfter => "the new text would be longer than a description may be",
        }
    }
}

/// Adds a fault, before those that are later in the text.
pub(crate) fn push_fault(
    faults: &mut Vec<ImportFault>,
    kind: FaultKind,
    at: usize,
    len: usize,
) -> Result<(), AllocError> {
    let mut place = 0usize;
    for (index, other) in faults.iter().enumerate() {
        if other.at <= at {
            place = index.saturating_add(1);
        }
    }
    let place = place.min(faults.len());
    faults.insert(place, ImportFault { at, len, kind })?;
    Ok(())
}

/// The same at a token.
pub(crate) fn push_fault_at(
    faults: &mut Vec<ImportFault>,
    kind: FaultKind,
    token: Token<'_>,
) -> Result<(), AllocError> {
    push_fault(faults, kind, token.at, token.text.len())
}
