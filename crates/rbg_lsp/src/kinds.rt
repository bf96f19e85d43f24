//! What names mean.

/// What a name means.
#[derive(Clone, Copy, PartialEq, Eq)]
pub(crate) enum Kind {
    Direction,
    Piece,
    Player,
    Variable,
    Vertex,
}

/// The things that a name may mean. A player is one of the variables.
#[derive(Clone, Copy)]
pub(crate) struct Kinds {
    pub direction: bool,
    pub piece: bool,
    pub variable: bool,
    pub vertex: bool,
}

/// What must come at a place.
#[derive(Clone, Copy, PartialEq, Eq)]
pub(crate) enum Needed {
    Direction,
    Piece,
    Player,
    Variable,
    /// A variable or a piece, in arithmetic.
    Value,
    Vertex,
    /// The place doesn't show it.
    Anything,
}

impl Kinds {
    /// No kind.
    pub const NONE: Kinds = Kinds {
        direction: false,
        piece: false,
        variable: false,
        vertex: false,
    };

    /// One kind alone.
    pub fn of(kind: Kind) -> Kinds {
        Kinds {
            direction: kind == Kind::Direction,
            piece: kind == Kind::Piece,
            variable: kind == Kind::Player || kind == Kind::Variable,
            vertex: kind == Kind::Vertex,
        }
    }

    /// Those of both.
    pub fn with(self, other: Kinds) -> Kinds {
        Kinds {
            direction: self.direction || other.direction,
            piece: self.piece || other.piece,
            variable: self.variable || other.variable,
            vertex: self.vertex || other.vertex,
        }
    }

    /// Whether there is none.
    pub fn is_none(self) -> bool {
        !(self.direction || self.piece || self.variable || self.vertex)
    }

    /// Whether one of them is this kind.
    pub fn has(self, kind: Kind) -> bool {
        self.shares(Kinds::of(kind))
    }

    /// Whether one of them is one of the others.
    pub fn shares(self, other: Kinds) -> bool {
        self.direction && other.direction
            || self.piece && other.piece
            || self.variable && other.variable
            || self.vertex && other.vertex
    }

    /// Whether each of them is one of the others.
    pub fn are_among(self, other: Kinds) -> bool {
        !(self.direction && !other.direction
            || self.piece && !other.piece
            || self.variable && !other.variable
            || self.vertex && !other.vertex)
    }

    /// Those of them that a name can mean at a place for such a thing.
    pub fn where_needed(self, needed: Needed) -> Kinds {
        match needed {
            Needed::Direction => self.only(Kind::Direction),
            Needed::Piece => self.only(Kind::Piece),
            Needed::Player | Needed::Variable => self.only(Kind::Variable),
            Needed::Value if self.variable => self.only(Kind::Variable),
            Needed::Value => self.only(Kind::Piece),
            Needed::Vertex => self.only(Kind::Vertex),
            Needed::Anything => Kinds {
                vertex: false,
                ..self
            },
        }
    }

    /// The one kind, if it is among them.
    fn only(self, kind: Kind) -> Kinds {
        if self.has(kind) {
            Kinds::of(kind)
        } else {
            Kinds::NONE
        }
    }
}
