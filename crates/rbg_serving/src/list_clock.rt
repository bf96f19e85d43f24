//! Clocks over a list.
ghost use Rattle.std.specs.Prelude.{◌≡◌, ◌≤◌, ◌++◌, ◌∷◌, [], ℕ, List, vec_len};
ghost use Rattle.rbg_serving.specs.ListClocks.{HasTold};

use crate::{Clock, Pause};

/// A clock that tells the moments of a list, then the last of them again and again. The moment is 0 if there is none.
#[derive(Drop)]
pub struct ListClock {
    moments: Vec<u64>,
    /// How many of the moments were told.
    told: usize,
    ghost of_list: { told ≤ vec_len moments },
}

impl ListClock {
    /// A clock that tells these moments.
    pub fn new(moments: Vec<u64>) -> ListClock
        ensures moments { result.moments ≡ moments }
        ensures none { result.told ≡ 0 }
        ensures told { ⟦<ListClock as Clock>⟧.told result [] }
    {
        ListClock { moments, told: 0 }
    }
}

impl Clock for ListClock {
    ghost told = { λ clock so_far. HasTold clock.moments.items clock.told so_far };

    fn now(&mut self) -> u64
        ensures told { (so_far : List ℕ) →
            HasTold self.old.moments.items self.old.told so_far →
            HasTold self.new.moments.items self.new.told (so_far ++ result ∷ []) }
        ensures moments { self.new.moments ≡ self.old.moments }
    {
        if let Some(moment) = self.moments.as_slice().get(self.told) {
            self.told += 1;
            return *moment;
        }
        self.moments.as_slice().last().copied().unwrap_or(0)
    }

    fn wait(&mut self, _pause: Pause)
        ensures { self.new ≡ self.old }
    {}
}
