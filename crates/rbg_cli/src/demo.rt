//! The command `demo`: a match between players of this process.
ghost use Rattle.std.specs.Prelude.{ℕ, List, Option, IfOk};
ghost use Rattle.rbg_cli.specs.Served.{IsMatchRecord, plain_record};
ghost use Rattle.rbg_console.specs.Files.{MayBe};
ghost use Rattle.rbg_hosting.specs.Played.{IsPlayedMatch};

use crate::command::Service;
use crate::connecting::{connect_players, tell_who_gave_up};
use crate::devices::Devices;
use crate::fault::Fault;
use crate::inputs::read_description;
use rbg_console::{Files, Status};
use rbg_game::load;
use rbg_hosting::{NOTHING_KEPT, NewMatch, Serving, serve_lines};
use rbg_match::Match;
use rbg_network::{Hosting, Network};
use rbg_record::write_record_1;
use std::alloc::Global;
use std::io::Write;

/// Referees a match of the file's game between players of this process, and prints its record of version 1.
pub fn run_demo<F: Files, N: Network, R, W: Write>(
    alloc: Global,
    file: &str,
    service: Service,
    devices: &mut Devices<F, N, R, W>,
) -> Status {
    let told = demo_file(alloc, file, service, devices);
    devices.report_lines("the record", told)
}

/// Referees a match of the file's game between players of this process, and returns its record of version 1.
fn demo_file<F: Files, N: Network, R, W>(
    alloc: Global,
    file: &str,
    service: Service,
    devices: &mut Devices<F, N, R, W>,
) -> Result<Vec<u8>, Fault>
    ensures { IfOk result (λ told.
        IsMatchRecord plain_record (F.told devices.old.files file.now) told.items) }
{
    let text = read_description(alloc, &mut devices.files, file)?;
    let played = demo_text(alloc, text.as_slice(), &mut devices.network, service)?;
    record_plainly(alloc, &played)
}

/// Referees a match of the text's game between players of this process.
fn demo_text<N: Network>(
    alloc: Global,
    text: &[u8],
    network: &mut N,
    service: Service,
) -> Result<Match, Fault>
    ensures { IfOk result (λ played. IsPlayedMatch text.now played) }
{
    let game = load(alloc, text)?;
    let mut lines = connect_players(alloc, network, game.players(), service.seed)?;
    let serving = Serving {
        config: service.config,
        rounds: service.rounds,
        keeping: NOTHING_KEPT,
        hosting: Hosting {
            port: 0,
            wait: None,
            quiet: true,
        },
    };
    let new_match = NewMatch {
        game,
        text,
        log: None::<N::Log>,
    };
    let played = serve_lines(alloc, new_match, network, &serving, lines.as_mut_slice());
    tell_who_gave_up(network, lines.as_slice());
    Ok(played?)
}

/// The record of a match, in version 1.
fn record_plainly(alloc: Global, played: &Match) -> Result<Vec<u8>, Fault>
    ensures { (known : Option (List ℕ)) (description : List ℕ) →
        MayBe known description → IsPlayedMatch description played.now →
        IfOk result (λ told. IsMatchRecord plain_record known told.items) }
{
    Ok(write_record_1(alloc, played)?)
}
