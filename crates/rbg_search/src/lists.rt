//! Lists that a search lends, and keeps for further use.
ghost use Rattle.std.specs.Prelude.{◌≡◌};

use crate::search::Search;
use rbg_auto::Steps;
use rbg_flat::Modifiers;

impl<'a, S: Steps> Search<'a, S> {
    /// A list to lend to `reach_into` or `reach_flat`: one that was kept, where there is one. What it holds is of no use.
    #[inline(always)]
    pub fn take_list(&mut self) -> Modifiers
        ensures { self.new ≡ self.old }
    {
        match self.buffers.lists.pop() {
            Some(list) => list,
            None => Modifiers::new(self.alloc),
        }
    }

    /// Keeps a list that is no longer needed.
    #[inline(always)]
    pub fn keep_list(&mut self, list: Modifiers)
        ensures { self.new ≡ self.old }
    {
        // where there is no memory, it is let go
        let _kept = self.buffers.lists.push(list);
    }
}
