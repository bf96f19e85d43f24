//! Flat parts that are kept for further use.
ghost use Rattle.std.specs.Prelude.{◌≡◌, All, IfSome};
ghost use Rattle.rbg_search.specs.internal.Fitting.{FitSets, IsOfSize};

use rbg_flat::Flat as SetFlat;
use rbg_rules::Game;
use std::alloc::Global;

/// Flat parts that are not in use. All are for games with so many positions and vertices. Where
/// there is no memory for one more, it is let go.
#[derive(Drop)]
pub(crate) struct FlatPool {
    sets: Vec<Box<SetFlat>>,
    positions: usize,
    vertices: usize,
    ghost fit_sets: { All (λ flat. FitSets positions vertices flat.value.sets) sets.items },
}

impl FlatPool {
    /// No flat parts.
    pub(crate) fn new(alloc: Global) -> FlatPool {
        FlatPool {
            sets: Vec::new(alloc),
            positions: 0,
            vertices: 0,
        }
    }

    /// Lets go of what is of no use for a game.
    #[inline(always)]
    pub(crate) fn fit(&mut self, game: &Game)
        ensures { IsOfSize game.now self.new.positions self.new.vertices }
    {
        if self.positions != game.positions() || self.vertices != game.board().len() {
            self.fit_anew(game);
        }
    }

    /// Lets go of all, which were for games of another size.
    #[inline(never)]
    fn fit_anew(&mut self, game: &Game)
        ensures { IsOfSize game.now self.new.positions self.new.vertices }
    {
        self.sets.clear();
        self.positions = game.positions();
        self.vertices = game.board().len();
    }

    /// A flat part, if there is one.
    #[inline(always)]
    pub(crate) fn take_sets(&mut self) -> Option<Box<SetFlat>>
        ensures fits { IfSome result (λ flat.
            FitSets self.old.positions self.old.vertices flat.value.sets) }
        ensures positions { self.new.positions ≡ self.old.positions }
        ensures vertices { self.new.vertices ≡ self.old.vertices }
    {
        self.sets.pop()
    }

    /// Keeps a flat part.
    #[inline(always)]
    pub(crate) fn keep_sets(&mut self, flat: Box<SetFlat>)
        requires { FitSets self.old.positions self.old.vertices flat.value.sets }
        ensures positions { self.new.positions ≡ self.old.positions }
        ensures vertices { self.new.vertices ≡ self.old.vertices }
    {
        let _kept = self.sets.push(flat);
    }
}
