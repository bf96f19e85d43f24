//! The config of a script as that of a match.
ghost use Rattle.std.specs.Prelude.{◌≡◌};
ghost use Rattle.rbg_referee.specs.Scripts.{config_for};

use rbg_match::Config;
use rbg_script::ScriptConfig;

/// The config of the match.
pub fn config_of(config: ScriptConfig) -> Config
    ensures { result ≡ config_for config }
{
    Config {
        turn_ms: config.turn_ms,
        refusals: config.refusals,
    }
}
