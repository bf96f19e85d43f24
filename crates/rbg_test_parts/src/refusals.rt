//! Why a match or a hall can't be made. The programs read no config that is outside its limits, and no more than 16
//! files.
use crate::tables::tables;
use rbg_hall::{HallError, whole_hall};
use rbg_match::{Config, MAX_REFUSALS, MAX_TURN_MS};
use rbg_referee::{RefereeError, referee};
use std::alloc::Global;
use std::test::Fail;

/// White puts a piece on the only cell.
const TEXT: &[u8] = b"#players = white(1)
#pieces = e, w
#board = rectangle(up,down,left,right,[e])
#rules = ->white {e}[w] ->> {}
";

const CONFIG: Config = Config {
    turn_ms: 1000,
    refusals: 3,
};

/// A turn of no time.
const NO_TIME: Config = Config {
    turn_ms: 0,
    ..CONFIG
};

/// Too long a turn.
const LONG: Config = Config {
    turn_ms: MAX_TURN_MS + 1,
    ..CONFIG
};

/// Too many refusals.
const MANY: Config = Config {
    refusals: MAX_REFUSALS + 1,
    ..CONFIG
};

/// The configs of tables, and why there is no hall of them.
const HALLS: [(&[Config], Option<HallError>); 7] = [
    (&[], Some(HallError::Tables)),
    (&[CONFIG; 1], None),
    (&[CONFIG; 16], None),
    (&[CONFIG; 17], Some(HallError::Tables)),
    (&[NO_TIME; 17], Some(HallError::Tables)),
    (&[LONG; 16], Some(HallError::Config { table: 1 })),
    (
        &[CONFIG, CONFIG, MANY],
        Some(HallError::Config { table: 3 }),
    ),
];

/// Why there is no hall of tables with these configs.
fn hall_error(alloc: Global, configs: &[Config]) -> Result<Option<HallError>, Fail> {
    let tables = tables(alloc, TEXT, configs)?;
    Ok(whole_hall(alloc, tables, &[]).err())
}

#[test]
fn halls_have_one_to_sixteen_tables(rt: HostRuntime) -> Result<(), Fail> {
    for (configs, refused) in HALLS {
        assert_eq!(rt; hall_error(rt.alloc(), configs)?, refused);
    }
    Ok(())
}

/// Whether a match of the game is refused for its config.
fn has_faulty_config(alloc: Global, config: Config) -> bool {
    let refereed = referee(alloc, TEXT, config, 0, &[]);
    matches!(&refereed, Err(RefereeError::Config))
}

#[test]
fn configs_outside_the_limits_are_refused(rt: HostRuntime) {
    for config in [NO_TIME, LONG, MANY] {
        assert!(rt; has_faulty_config(rt.alloc(), config));
    }
    assert!(rt; !has_faulty_config(rt.alloc(), CONFIG));
}
