//! How a match is served, and what is kept of it.

use rbg_match::Config;
use rbg_network::Hosting;

/// What is kept of a match, and how long it may take.
#[derive(Clone, Copy)]
pub struct Keeping<'a> {
    /// The new file for the log.
    pub log: Option<&'a str>,
    /// The log of a match that goes on.
    pub resume: Option<&'a str>,
    /// Whether each write to the log waits for the disk.
    pub sync: bool,
    /// How many minutes the match may take. Then its rounds aren't counted.
    pub minutes: Option<u64>,
    /// Who sits where, seat 1 first, with a comma between two names.
    pub names: Option<&'a str>,
    /// The directory for the record.
    pub records: Option<&'a str>,
}

/// Nothing is kept, and rounds are counted.
pub const NOTHING_KEPT: Keeping<'static> = Keeping {
    log: None,
    resume: None,
    sync: false,
    minutes: None,
    names: None,
    records: None,
};

/// How a match between players at a port is served.
#[derive(Clone, Copy)]
pub struct Serving<'a> {
    pub config: Config,
    /// The most rounds.
    pub rounds: u64,
    pub keeping: Keeping<'a>,
    pub hosting: Hosting,
}
