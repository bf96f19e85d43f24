//! Why a hall has no printed lines.
ghost use Rattle.rbg_hosting.specs.Errors.{IsOfHall, IsOfInput};

use rbg_hall::HallError;
use rbg_referee::RefereeingError;
use thiserror::Error;

/// Why a hall has no printed lines.
#[derive(Clone, Copy, Debug, PartialEq, Eq, Error)]
pub enum HostingError {
    /// There is no description, or there are more than a hall has tables.
    #[error("not 1 to 16 descriptions")]
    Tables,
    /// The first description that is no game's is refused, the script is not of its form, or memory ran out.
    #[error("{0}")]
    Input(RefereeingError),
}

impl From<RefereeingError> for HostingError {
    ghost from_gives = { λ input error. IsOfInput input error };

    fn from(error: RefereeingError) -> HostingError {
        HostingError::Input(error)
    }
}

impl From<HallError> for HostingError {
    ghost from_gives = { λ hall error. IsOfHall hall error };

    fn from(error: HallError) -> HostingError {
        match error {
            HallError::Tables => HostingError::Tables,
            HallError::Config { .. } => HostingError::Input(RefereeingError::Script(1)),
            HallError::Memory => HostingError::Input(RefereeingError::Memory),
        }
    }
}
