//! The statuses with which the programs end.
ghost use Rattle.std.specs.Prelude.{◌≡◌};
ghost use Rattle.rbg_console.specs.Statuses.{status_code};

/// The status with which a program ends.
#[derive(Clone, Copy, Debug, PartialEq, Eq)]
pub enum Status {
    /// All that was asked for is done.
    Success,
    /// The description is refused, or not all of the answer can be given.
    Refused,
    /// The script or the record is not of its form, or not right.
    BadInput,
    /// A file, a stream or a connection failed, or a match did not end.
    Device,
    /// Out of memory.
    Memory,
    /// The words are not those of a command.
    CommandLine,
}

impl Status {
    /// The number for the system.
    #[tactic(auto, unfolding(crate::specs::Statuses::status_code))]
    pub fn code(self) -> u8
        ensures { result ≡ status_code self }
    {
        match self {
            Status::Success => 0,
            Status::Refused => 1,
            Status::BadInput => 2,
            Status::Device => 3,
            Status::Memory => 4,
            Status::CommandLine => 64,
        }
    }
}
