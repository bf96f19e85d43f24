//! The paths by which a search goes: lent to it, or its own.
ghost use Rattle.rbg_rules.specs.Meaning.{AbstractGame};
ghost use Rattle.rbg_flat.specs.Paths.{ArePathsOf};
ghost use Rattle.rbg_search.specs.internal.Held.{HoldsPathsOf};

use rbg_flat::Paths;

/// The paths by which a search goes while it answers a question.
#[derive(Drop)]
pub(crate) enum HeldPaths<'a> {
    /// They were lent to it with the game.
    Lent(&'a Paths),
    /// It made them itself.
    Own(Box<Paths>),
}

impl<'a> HeldPaths<'a> {
    #[inline(always)]
    pub(crate) fn get(&self) -> &Paths
        ensures { (game : AbstractGame) → HoldsPathsOf game self.now → ArePathsOf game result.now }
    {
        match self {
            HeldPaths::Lent(paths) => paths,
            HeldPaths::Own(paths) => paths,
        }
    }
}
