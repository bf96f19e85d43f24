//! Why a search gives up.
ghost use Rattle.std.specs.Prelude.{◌≡◌};
ghost use Rattle.rbg_search.specs.declared.over.Over.TheVariants.{Memory};

use rbg_base::Memory as OutOfMemory;
use std::alloc::AllocFailed;

/// Why a search gives up.
#[derive(Clone, Copy, Debug, PartialEq, Eq, Drop)]
pub enum Over {
    /// An opening has too many modifiers in a row.
    Deep,
    /// One more opening is needed than the budget allows.
    Wide,
    /// Memory was refused.
    Memory,
}

impl From<OutOfMemory> for Over {
    ghost from_gives = { λ _ over. over ≡ Memory };

    fn from(_error: OutOfMemory) -> Over {
        Over::Memory
    }
}

impl<T: Drop> From<AllocFailed<T>> for Over {
    ghost from_gives = { λ _ over. over ≡ Memory };

    fn from(_error: AllocFailed<T>) -> Over {
        Over::Memory
    }
}
