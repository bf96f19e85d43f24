//! Tables for the tests.
ghost use Rattle.std.specs.Prelude.{IfOk};
ghost use Rattle.rbg_hall.specs.Openings.{AreLoaded};
ghost use Rattle.rbg_game.specs.Loading.{Loads};

use rbg_game::load;
use rbg_hall::Table;
use rbg_match::Config;
use std::alloc::Global;
use std::test::Fail;

/// A table for a match of the game of this text.
fn table(alloc: Global, text: &[u8], config: Config) -> Result<Table, Fail>
    ensures { IfOk result (λ table. Loads table.text.items table.game) }
{
    let game = load(alloc, text)?;
    let text = Vec::from_slice(alloc, text)?;
    Ok(Table { game, text, config })
}

/// A table for a match of the game of this text, with each of the configs.
pub(crate) fn tables(alloc: Global, text: &[u8], configs: &[Config]) -> Result<Vec<Table>, Fail>
    ensures { IfOk result (λ tables. AreLoaded tables.items) }
{
    let mut tables = Vec::new(alloc);
    for config in configs {
        tables.push(table(alloc, text, *config)?)?;
    }
    Ok(tables)
}
