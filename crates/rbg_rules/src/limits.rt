//! The limits on the size of a game, and on the openings of a question.
ghost use Rattle.std.specs.Prelude.{◌≡◌};
ghost use Rattle.rbg_board.specs.Limits.{most_vertices};
ghost use Rattle.rbg_rules.specs.Limits.{most_players, most_pieces, most_variables, max_bound, most_directions, most_positions, most_nested_patterns, most_openings, most_modifiers};

pub use rbg_board::MAX_VERTICES;

/// The maximum number of players. The keeper isn't counted.
pub const MAX_PLAYERS: usize = 8;

/// The maximum number of pieces.
pub const MAX_PIECES: usize = 1_000;

/// The maximum number of variables. The players' scores are variables too.
pub const MAX_VARIABLES: usize = 64;

/// The maximum bound of a variable.
pub const MAX_BOUND: u64 = 1_000_000_000;

/// The maximum number of directions.
pub const MAX_DIRECTIONS: usize = 64;

/// The maximum number of positions: the actions of the rules, and those inside patterns.
pub const MAX_POSITIONS: usize = 20_000;

/// The maximum depth of patterns nested in each other.
pub const MAX_NESTED_PATTERNS: usize = 8;

/// The maximum number of different openings of a question.
pub const MAX_OPENINGS: usize = 100_000;

/// An opening with this many modifiers in a row is too deep.
pub const MAX_MODIFIERS: usize = 200;

/// The limits are the numbers that the definitions state.
pub fn limits_are_as_stated()
    ensures players { MAX_PLAYERS ≡ most_players }
    ensures pieces { MAX_PIECES ≡ most_pieces }
    ensures variables { MAX_VARIABLES ≡ most_variables }
    ensures bound { MAX_BOUND ≡ max_bound }
    ensures directions { MAX_DIRECTIONS ≡ most_directions }
    ensures positions { MAX_POSITIONS ≡ most_positions }
    ensures vertices { MAX_VERTICES ≡ most_vertices }
    ensures nested_patterns { MAX_NESTED_PATTERNS ≡ most_nested_patterns }
    ensures openings { MAX_OPENINGS ≡ most_openings }
    ensures modifiers { MAX_MODIFIERS ≡ most_modifiers }
{}
