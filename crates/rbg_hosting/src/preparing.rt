//! A hall before its matches: its tables and its logs.
ghost use Rattle.std.specs.Prelude.{◌≡◌, [], List, map, IfOk};
ghost use Rattle.rbg_hall.specs.Openings.{AreLoaded, IsNewHall, starts_of};
ghost use Rattle.rbg_hall.specs.declared.table.Table.{Table};
ghost use Rattle.rbg_match.specs.PlayingOn.{seats_of};
ghost use Rattle.rbg_hosting.specs.Tables.{texts_of};
ghost use Rattle.rbg_hosting.specs.internal.Recorded.{ArePlaces};
ghost use Rattle.rbg_hosting.specs.internal.Prepared.{IsPrepared};
ghost use Rattle.rbg_network.specs.Archives.{Handed};

use crate::archive::begin_records;
use crate::fault::ServingFault;
use crate::names::names_in;
use crate::past::{Past, name_of};
use crate::tables::tables_of;
use crate::task::{Keeping, Serving};
use rbg_hall::{Hall, HallError, HallOut, Table};
use rbg_network::{Archive, Named, Network, begin_log};
use rbg_serving::Log;
use std::alloc::{AllocError, Global};

/// A hall whose players are to be waited for.
#[derive(Drop)]
pub(crate) struct Prepared<W: Log> {
    pub(crate) hall: Hall<W>,
    pub(crate) out: HallOut,
    /// What the logs hold from which the matches go on, that of match 1 first. A new hall has none.
    pub(crate) pasts: Vec<Past>,
    /// How many players each match has.
    pub(crate) players: Vec<u64>,
    /// A place for each match whose record is wanted.
    pub(crate) noted: Vec<bool>,
}

/// Makes a hall with a table for each description.
pub(crate) fn prepare<N: Network, A: Archive>(
    alloc: Global,
    descriptions: &[Vec<u8>],
    network: &mut N,
    serving: &Serving<'_>,
    archive: &mut A,
) -> Result<Prepared<N::Log>, ServingFault>
    ensures handed { (so_far : List Handed) → A.handed archive.old so_far → A.handed archive.new so_far }
    ensures prepared { IfOk result (λ prepared. IsPrepared serving.now.config (texts_of descriptions.now)
        (A.wants archive.old) prepared.hall prepared.out prepared.players.items prepared.noted.items) }
    ensures is_new { IfOk result (λ prepared. prepared.pasts.items ≡ []) }
{
    let tables = tables_of(alloc, descriptions, serving.config)?;
    let players = players_in(alloc, tables.as_slice())?;
    let noted = places_for(alloc, archive, tables.len())?;
    begin_records(archive, noted.len(), false)?;
    let (mut hall, out) = open_hall(alloc, tables)?;
    keep_logs(alloc, network, &mut hall, descriptions, &serving.keeping)?;
    Ok(Prepared {
        hall,
        out,
        pasts: Vec::new(alloc),
        players,
        noted,
    })
}

/// How many players each match has.
pub(crate) fn players_in(alloc: Global, tables: &[Table]) -> Result<Vec<u64>, AllocError>
    ensures { IfOk result (λ players. players.items ≡ map (λ (table : Table). seats_of table.game) tables.now) }
{
    let mut players = Vec::with_capacity(alloc, tables.len())?;
    for table in tables {
        players.push(table.game.players() as u64)?;
    }
    Ok(players)
}

/// A place for each of so many matches, if their records are wanted. None was handed over.
pub(crate) fn places_for<A: Archive>(
    alloc: Global,
    archive: &A,
    matches: usize,
) -> Result<Vec<bool>, AllocError>
    ensures { IfOk result (λ noted. ArePlaces (A.wants archive.now) matches noted.items) }
{
    let wanted = if archive.wants_records() { matches } else { 0 };
    vec![in alloc; false; wanted]
}

/// A new hall of these tables.
pub(crate) fn open_hall<W: Log>(
    alloc: Global,
    tables: Vec<Table>,
) -> Result<(Hall<W>, HallOut), ServingFault>
    requires { AreLoaded tables.items }
    ensures { IfOk result (λ made. IsNewHall (starts_of tables.items) made.0 made.1) }
{
    match Hall::new(alloc, tables) {
        Ok(made) => Ok(made),
        Err(HallError::Tables) => Err(ServingFault::Config),
        Err(HallError::Config { .. }) => Err(ServingFault::Config),
        Err(HallError::Memory) => Err(ServingFault::Memory(AllocError)),
    }
}

/// Begins the logs of the descriptions' matches, if they are wanted: each is a new file with the name given, a point and the
/// match's number, which has a game file beside it.
fn keep_logs<N: Network>(
    alloc: Global,
    network: &mut N,
    hall: &mut Hall<N::Log>,
    descriptions: &[Vec<u8>],
    keeping: &Keeping<'_>,
) -> Result<(), ServingFault>
    ensures state { hall.new.state ≡ hall.old.state }
    ensures failed { hall.new.failed ≡ hall.old.failed }
{
    let Some(name) = keeping.log else {
        return Ok(());
    };
    for (index, description) in descriptions.iter().enumerate() {
        let number = index as u64 + 1;
        let log = name_of(alloc, name, number)?;
        let named = Named {
            description: description.as_slice(),
            names: names_in(keeping.names, index),
        };
        hall.keep(
            number,
            begin_log(alloc, network, log.as_str(), keeping.sync, named)?,
        );
    }
    Ok(())
}
