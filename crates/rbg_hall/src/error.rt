//! Why there is no hall.
ghost use Rattle.std.specs.Prelude.{◌≡◌};

use rbg_base::Memory as OutOfMemory;
use thiserror::Error;

/// Why a hall isn't made, or doesn't go on.
#[derive(Clone, Copy, Debug, PartialEq, Eq, Error)]
pub enum HallError {
    /// There is no table, or there are more than `TABLES`.
    #[error("not 1 to 16 tables")]
    Tables,
    /// A number in the config of this table is outside its limits. Tables are numbered from 1.
    #[error("the config of table {table} is outside the limits")]
    Config { table: u64 },
    /// A request for memory failed.
    #[error("out of memory")]
    Memory,
}

impl From<OutOfMemory> for HallError {
    ghost use Rattle.rbg_hall.specs.declared.error.HallError.TheVariants.{Memory};

    ghost from_gives = { λ _ error. error ≡ Memory };

    fn from(_memory: OutOfMemory) -> HallError {
        HallError::Memory
    }
}
