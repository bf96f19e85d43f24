//! Why the keeper's moves lead to no place where play rests.
ghost use Rattle.std.specs.Prelude.{◌≡◌, ◌⊎◌};
ghost use Rattle.rbg_moves.specs.declared.unsettled.Unsettled.TheVariants.{Heavy, Memory};

use rbg_base::Memory as OutOfMemory;
use rbg_search::Over;

/// Why the keeper's moves lead to no place where a player is to move or play is finished.
#[derive(Clone, Copy, Debug, PartialEq, Eq)]
pub enum Unsettled {
    /// A question at one of the places is above the limits. A caller that also asks at players' places, as a count of moves
    /// does, gives this for those questions too.
    Heavy,
    /// The keeper is to move after 1,000 of its moves in a row.
    Endless,
    /// A request for memory failed.
    Memory,
}

impl From<Over> for Unsettled {
    ghost use Rattle.rbg_search.specs.declared.over.Over.TheVariants.{Deep, Wide, Memory as NoMemory};

    ghost from_gives = { λ over why.
        ((why ≡ Heavy) × ((over ≡ Deep) ⊎ (over ≡ Wide))) ⊎ ((why ≡ Memory) × (over ≡ NoMemory)) };

    fn from(over: Over) -> Unsettled {
        match over {
            Over::Deep | Over::Wide => Unsettled::Heavy,
            Over::Memory => Unsettled::Memory,
        }
    }
}

impl From<OutOfMemory> for Unsettled {
    ghost from_gives = { λ _ why. why ≡ Memory };

    fn from(_memory: OutOfMemory) -> Unsettled {
        Unsettled::Memory
    }
}
