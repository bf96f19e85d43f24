//! The command `serve`: a match between the players that connect to a port.
ghost use Rattle.std.specs.Prelude.{ℕ, List, Option, IfOk};
ghost use Rattle.rbg_cli.specs.Served.{IsMatchRecord, timed_record};
ghost use Rattle.rbg_console.specs.Files.{MayBe};
ghost use Rattle.rbg_hosting.specs.Played.{IsPlayedMatch};

use crate::command::ServedMatch;
use crate::devices::Devices;
use crate::fault::Fault;
use crate::inputs::read_description;
use rbg_console::{Files, Status};
use rbg_hosting::{keep_record, serve_match};
use rbg_match::Match;
use rbg_network::Network;
use rbg_record::write_record;
use rbg_referee::Answer;
use std::alloc::Global;
use std::io::Write;

/// Referees a match of the file's game between the first players that connect to the port, and prints its record.
pub fn run_serve<F: Files, N: Network, R, W: Write>(
    alloc: Global,
    served: &ServedMatch<'_>,
    devices: &mut Devices<F, N, R, W>,
) -> Status {
    let outcome = serve_file(alloc, served, devices);
    devices.report("the record", &outcome)
}

/// Referees a match of the file's game between the first players that connect to the port, and returns its record. Where
/// that is to be kept in a file too, and can't be, the status says so.
fn serve_file<F: Files, N: Network, R, W>(
    alloc: Global,
    served: &ServedMatch<'_>,
    devices: &mut Devices<F, N, R, W>,
) -> Result<Answer, Fault>
    ensures { IfOk result (λ answer.
        IsMatchRecord timed_record (F.told devices.old.files served.now.file.now) answer.text.items) }
{
    let text = read_description(alloc, &mut devices.files, served.file)?;
    let played = serve_match(
        alloc,
        text.as_slice(),
        &mut devices.files,
        &mut devices.network,
        &served.serving,
    )?;
    let told = record_match(alloc, &played)?;
    let status = kept_status(&mut devices.network, served, told.as_slice());
    Ok(Answer { text: told, status })
}

/// Keeps a record in a file too, where that is wanted. The status says whether it could be.
fn kept_status<N: Network>(network: &mut N, served: &ServedMatch<'_>, told: &[u8]) -> Status {
    match keep_record(network, &served.serving.keeping, told) {
        Ok(()) => Status::Success,
        Err(_) => Status::Device,
    }
}

/// The record of a match, in version 2.
fn record_match(alloc: Global, played: &Match) -> Result<Vec<u8>, Fault>
    ensures { (known : Option (List ℕ)) (description : List ℕ) →
        MayBe known description → IsPlayedMatch description played.now →
        IfOk result (λ told. IsMatchRecord timed_record known told.items) }
{
    Ok(write_record(alloc, played)?)
}
