//! A table as a hall is given it.

use rbg_match::Config;
use rbg_rules::Game;

/// A game, its text and the config of the match at a table.
#[derive(Drop)]
pub struct Table {
    pub game: Game,
    pub text: Vec<u8>,
    pub config: Config,
}
