//! What a flat part is looked for in.
use crate::paths::Paths;
use rbg_rules::Game;
use rbg_state::SemiState;

/// A game, its paths, and the semi-state in which a flat part is looked for. Inlined functions are lent it whole, which
/// costs nothing; others are lent its parts.
#[derive(Drop)]
pub(crate) struct Setting<'a> {
    pub game: &'a Game,
    pub paths: &'a Paths,
    pub state: &'a SemiState,
}
