//! How far sequences of moves are looked at.
ghost use Rattle.std.specs.Prelude.{◌≡◌, false};
ghost use Rattle.rbg_questions.specs.declared.extent.Extent.TheVariants.{Moves};

/// What is asked after the last move of a sequence.
#[derive(Clone, Copy)]
pub enum Extent {
    /// Whether play is finished there: the move is made, and so are the keeper's after it.
    Ends,
    /// Nothing: the last moves are listed, and none of them is made. No sequence counts as ended.
    Moves,
}

impl Extent {
    /// Whether something is asked after the last move.
    pub(crate) fn asks_ends(self) -> bool
        ensures { result ≡ false → self ≡ Moves }
    {
        match self {
            Extent::Ends => true,
            Extent::Moves => false,
        }
    }
}
