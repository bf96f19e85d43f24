//! The names of players, variables and pieces by their numbers, and the bounds of the variables.
ghost use Rattle.std.specs.Prelude.{◌≡◌, ◌≤◌, [], ◌∷◌, ◌++◌, map, Some, OnOk, IfOk, IfErr};
ghost use Rattle.rbg_grammar.specs.Views.{name_of, number_of, bounded_of};
ghost use Rattle.rbg_grammar.specs.Descriptions.{description_of_parts};
ghost use Rattle.rbg_game.specs.NameNumbers.{texts_of};
ghost use Rattle.rbg_game.specs.Descriptions.{holder_names};
ghost use Rattle.rbg_game.specs.Faults.{IsNoBound, HasFault};
ghost use Rattle.rbg_game.specs.NameTables.{HasNameFault};
ghost use Rattle.rbg_game.specs.internal.Holders.{HasHolderFault};
ghost use Rattle.rbg_game.specs.internal.Things.{AddsBounds, AreThingsOf};

use crate::game_error::{GameError, Thing, refuse_many};
use crate::name_table::NameTable;
use rbg_grammar::{Bounded, DescriptionParts, Name, Number};
use rbg_rules::limits::{MAX_BOUND, MAX_PIECES, MAX_PLAYERS, MAX_VARIABLES};
use std::alloc::Global;

/// The names of a description, and the bounds of its variables.
#[derive(Drop)]
pub(crate) struct Things {
    pub players: NameTable,
    /// The players, and then the other variables.
    pub variables: NameTable,
    pub bounds: Vec<u32>,
    pub pieces: NameTable,
}

/// Numbers the players, variables and pieces of a description.
///
/// The names and bounds are checked in order of text: players, then variables, then pieces, and a name before its bound.
/// Then they are counted.
pub(crate) fn number_things(
    alloc: Global,
    description: &DescriptionParts<'_>,
) -> Result<Things, GameError>
    ensures things { IfOk result (AreThingsOf (description_of_parts description.now)) }
    ensures fault { IfErr result (HasFault (description_of_parts description.now)) }
{
    let mut variables = NameTable::new(alloc);
    let mut bounds = Vec::new(alloc);
    add_holders(&mut variables, &mut bounds, &description.players)?;
    add_holders(&mut variables, &mut bounds, &description.variables)?;
    let mut pieces = NameTable::new(alloc);
    add_names(&mut pieces, &description.pieces)?;
    let mut players = NameTable::new(alloc);
    add_players(&mut players, &description.players)?;
    refuse_many(players.len(), MAX_PLAYERS, Thing::Players)?;
    refuse_many(pieces.len(), MAX_PIECES, Thing::Pieces)?;
    refuse_many(variables.len(), MAX_VARIABLES, Thing::Variables)?;
    Ok(Things {
        players,
        variables,
        bounds,
        pieces,
    })
}

/// Adds names after those of the table.
fn add_names(table: &mut NameTable, names: &[Name<'_>]) -> Result<(), GameError>
    ensures names { OnOk result (table.new ≡ table.old ++ texts_of (map name_of names.now)) }
    ensures fault { IfErr result (HasNameFault table.old (map name_of names.now)) }
{
    for name in names {
        table.insert(name)?;
    }
    Ok(())
}

/// Adds the names of players after those of the table.
fn add_players(table: &mut NameTable, players: &[Bounded<'_>]) -> Result<(), GameError>
    ensures names { OnOk result (table.new
        ≡ table.old ++ holder_names (map bounded_of players.now)) }
    ensures fault { IfErr result (HasHolderFault table.old (map bounded_of players.now)) }
{
    for player in players {
        table.insert(&player.name)?;
    }
    Ok(())
}

/// Adds the names of players or variables after those of the table, and their bounds after the bounds.
fn add_holders(
    table: &mut NameTable,
    bounds: &mut Vec<u32>,
    holders: &[Bounded<'_>],
) -> Result<(), GameError>
    ensures names { OnOk result (table.new
        ≡ table.old ++ holder_names (map bounded_of holders.now)) }
    ensures bounds { OnOk result (AddsBounds (map bounded_of holders.now) bounds.old.items
        bounds.new.items) }
    ensures fault { IfErr result (HasHolderFault table.old (map bounded_of holders.now)) }
{
    for holder in holders {
        add_holder(table, bounds, holder)?;
    }
    Ok(())
}

/// Adds the name of a player or a variable after those of the table, and its bound after the bounds.
fn add_holder(
    table: &mut NameTable,
    bounds: &mut Vec<u32>,
    holder: &Bounded<'_>,
) -> Result<(), GameError>
    ensures name { OnOk result (table.new ≡ table.old ++ holder.now.name.text.now ∷ []) }
    ensures bound { OnOk result (AddsBounds (bounded_of holder.now
        ∷ []) bounds.old.items bounds.new.items) }
    ensures fault { IfErr result (HasHolderFault table.old (bounded_of holder.now ∷ [])) }
{
    table.insert(&holder.name)?;
    bounds.push(read_bound(holder.bound)?)?;
    Ok(())
}

/// The bound that a number spells.
fn read_bound(number: Number) -> Result<u32, GameError>
    ensures bound { IfOk result (λ bound. number.value ≡ Some bound) }
    ensures limit { IfOk result (λ bound. bound ≤ MAX_BOUND) }
    ensures which { IfErr result (λ error. error ≡ GameError.Bound number.at) }
    ensures too_great { IfErr result (λ _. IsNoBound (number_of number)) }
{
    match number.value {
        Some(value) if value <= MAX_BOUND => Ok(value as u32),
        _ => Err(GameError::Bound { at: number.at }),
    }
}
