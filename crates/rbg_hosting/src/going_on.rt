//! A hall goes on from the logs of its matches.
ghost use Rattle.std.specs.Prelude.{◌≡◌, ◌≤◌, ℕ, [], List, length, IfOk, OnOk};
ghost use Rattle.rbg_script.specs.Events.{AbstractEvent};
ghost use Rattle.rbg_hall.specs.Halls.{AbstractTable};
ghost use Rattle.rbg_hall.specs.Wholes.{HasRun};
ghost use Rattle.rbg_hosting.specs.Pasts.{log_name, past_from};
ghost use Rattle.rbg_hosting.specs.Records.{HasEnded};
ghost use Rattle.rbg_hosting.specs.Served.{IsResumed};
ghost use Rattle.rbg_hosting.specs.Tables.{texts_of};
ghost use Rattle.rbg_hosting.specs.internal.Recorded.{HasHeard, RunEnds};
ghost use Rattle.rbg_hosting.specs.internal.Resuming.{IsPreparedAgain, pasts_in};
ghost use Rattle.rbg_match.specs.declared.config.Config.{Config};
ghost use Rattle.rbg_network.specs.Archives.{Handed};

use crate::archive::begin_records;
use crate::fault::ServingFault;
use crate::past::{Past, config_in, read_pasts};
use crate::preparing::{Prepared, open_hall, places_for, players_in};
use crate::recorded_hall::RecordedHall;
use crate::replay::replay_all;
use crate::serving::{play, play_seated};
use crate::tables::tables_of;
use crate::task::Serving;
use rbg_console::Files;
use rbg_hall::{Hall, HallOut};
use rbg_network::{Archive, Network};
use rbg_referee::Answer;
use rbg_serving::Log;
use std::alloc::Global;

/// A hall whose matches are to go on.
#[derive(Clone, Copy)]
pub struct ResumedHall<'a> {
    /// The descriptions of its games.
    pub descriptions: &'a [Vec<u8>],
    /// What the names of its logs begin with.
    pub log: &'a str,
    pub serving: &'a Serving<'a>,
}

/// Goes on with the matches of a hall from their logs, which this process takes. A match that has ended keeps its record, one
/// that hasn't begun begins anew, and the others go on, between players that ask for their seats again. Returns what
/// `serve_hall` returns. The config is that of the logs.
pub fn resume_hall<F: Files, N: Network, A: Archive>(
    alloc: Global,
    resumed: ResumedHall<'_>,
    files: &mut F,
    network: &mut N,
    archive: A,
) -> (Result<Answer, ServingFault>, A)
    ensures { A.handed archive [] → IsResumed A.handed N.Clock.told
        (λ number. F.told files.old (log_name resumed.entry.log.now number))
        resumed.entry.serving.now.config (texts_of resumed.entry.descriptions.now) (A.wants archive) result.1 result.0 }
{
    let mut archive = archive;
    match prepare_again(alloc, resumed, files, network, &mut archive) {
        Ok(again) => play(alloc, network, again, archive, resumed.serving),
        Err(fault) => (Err(fault), archive),
    }
}

/// Reads the logs of a hall, and makes the hall, which has not heard them yet.
fn prepare_again<F: Files, N: Network, A: Archive>(
    alloc: Global,
    resumed: ResumedHall<'_>,
    files: &mut F,
    network: &mut N,
    archive: &mut A,
) -> Result<Prepared<N::Log>, ServingFault>
    ensures handed { (so_far : List Handed) → A.handed archive.old so_far → A.handed archive.new so_far }
    ensures prepared { IfOk result (λ again. IsPreparedAgain
        resumed.entry.serving.now.config (texts_of resumed.entry.descriptions.now)
        (λ number. F.told files.old (log_name resumed.entry.log.now number)) (A.wants archive.old)
        again.hall again.out (pasts_in again.pasts.items) again.players.items again.noted.items) }
    ensures as_many { IfOk result (λ again. length again.pasts.items ≤ length again.players.items) }
{
    let pasts = read_pasts(alloc, resumed.descriptions, files, network, resumed.log)?;
    let config = config_in(pasts.as_slice(), resumed.serving.config)?;
    let tables = tables_of(alloc, resumed.descriptions, config)?;
    let players = players_in(alloc, tables.as_slice())?;
    let noted = places_for(alloc, archive, tables.len())?;
    begin_records(archive, noted.len(), true)?;
    let (mut hall, out) = open_hall(alloc, tables)?;
    keep_again(network, &mut hall, pasts.as_slice(), resumed.serving)?;
    Ok(Prepared {
        hall,
        out,
        pasts,
        players,
        noted,
    })
}

/// Gives each match a log that is to replace the old one.
fn keep_again<N: Network>(
    network: &mut N,
    hall: &mut Hall<N::Log>,
    pasts: &[Past],
    serving: &Serving<'_>,
) -> Result<(), ServingFault>
    ensures state { hall.new.state ≡ hall.old.state }
    ensures failed { hall.new.failed ≡ hall.old.failed }
{
    for (index, past) in pasts.iter().enumerate() {
        hall.keep(
            index as u64 + 1,
            network.rewrite_log(past.log.as_str(), serving.keeping.sync)?,
        );
    }
    Ok(())
}

/// The matches of a hall.
#[derive(Clone, Copy)]
pub(crate) struct Going<'a> {
    /// What the logs hold from which they go on.
    pub(crate) pasts: &'a [Past],
    /// How many players each match has.
    pub(crate) players: &'a [u64],
    pub(crate) serving: &'a Serving<'a>,
}

/// Lets a hall hear what its logs hold, waits for its players, and goes on with its matches.
pub(crate) fn go_on<N: Network, A: Archive>(
    alloc: Global,
    network: &mut N,
    recorded: &mut RecordedHall<N::Log, A>,
    out: &mut HallOut,
    going: Going<'_>,
) -> Result<(), ServingFault>
    requires { length going.pasts.now ≤ length going.players.now }
    ensures new_ended { going.entry.pasts.now ≡ [] → OnOk result ((starts : List AbstractTable) (past : List AbstractEvent) →
        HasRun starts past recorded.old.hall.state out.old →
        HasEnded starts recorded.new.hall.state) }
    ensures ended { OnOk result ((starts : List AbstractTable) (matches : ℕ) →
        HasHeard A.handed starts matches recorded.old.recorder [] recorded.old.hall.state out.old →
        HasEnded starts recorded.new.hall.state) }
    ensures archived { (starts : List AbstractTable) (matches : ℕ) →
        length starts ≡ length going.entry.players.now →
        HasHeard A.handed starts matches recorded.old.recorder [] recorded.old.hall.state out.old →
        RunEnds A.handed N.Clock.told starts matches
        (past_from 1 0 going.entry.players.now (pasts_in going.entry.pasts.now)) recorded.new result }
{
    match replay_all(alloc, recorded, out, going.pasts, going.players) {
        Ok(()) => play_seated(alloc, network, recorded, out, going),
        Err(fault) => Err(recorded.fault_after(fault)),
    }
}
