//! Directions by numbers: a name that is new has the next number.
ghost use Rattle.std.specs.Prelude.{◌≡◌, ◌≤◌, map, length, IfOk, IfErr};
ghost use Rattle.rbg_grammar.specs.Views.{name_of};
ghost use Rattle.rbg_game.specs.internal.Boards.{Joins, NumbersDirections};

use crate::game_error::GameError;
use crate::name_table::NameTable;
use rbg_grammar::Name;
use rbg_rules::limits::MAX_DIRECTIONS;
use std::alloc::Global;

/// The number of a name. A name that is new joins the table.
pub(crate) fn join(table: &mut NameTable, name: &Name<'_>) -> Result<usize, GameError>
    ensures number { IfOk result (Joins table.old table.new name.now.text.now) }
    ensures memory { IfErr result (λ error. error ≡ GameError.Memory) }
{
    match table.number_of(name.text) {
        Some(number) => Ok(number),
        None => {
            let number = table.len();
            table.insert(name)?;
            Ok(number)
        }
    }
}

/// Numbers the names of directions in a new table. Equal names have one number.
pub(crate) fn number_directions(
    alloc: Global,
    names: &[Name<'_>],
    numbers: &mut [u16],
) -> Result<NameTable, GameError>
    requires one_each { length numbers.old ≡ length names.now }
    requires few { length names.now ≤ MAX_DIRECTIONS }
    ensures numbers { IfOk result (NumbersDirections (map name_of names.now) numbers.new) }
    ensures memory { IfErr result (λ error. error ≡ GameError.Memory) }
{
    let mut table = NameTable::new(alloc);
    for (place, name) in names.iter().enumerate() {
        numbers[place] = join(&mut table, name)? as u16;
    }
    Ok(table)
}
