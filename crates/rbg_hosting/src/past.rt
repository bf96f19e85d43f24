//! What the logs of a hall's matches hold.
ghost use Rattle.std.specs.Prelude.{◌≡◌, ℕ, List, All, Option, length, option_map, string_bytes, IfOk, IsTrue};
ghost use Rattle.rbg_console.specs.Files.{KeepsFiles, MayBe};
ghost use Rattle.rbg_hosting.specs.Pasts.{AreLogs, HasConfig, IsLogOf, config_from, log_name};
ghost use Rattle.rbg_hosting.specs.internal.Resuming.{past_in_code, pasts_in};
ghost use Rattle.rbg_script.specs.Scripts.{script_of};

use crate::ServingFault;
use rbg_console::{Files, Input};
use rbg_match::Config;
use rbg_network::{Network, take_log};
use rbg_referee::config_of;
use rbg_script::{Event, Script, read_script};
use rbg_serving::whole_lines;
use std::alloc::{AllocError, Global};

/// What the log of a match of a hall holds.
#[derive(Drop)]
pub(crate) struct Past {
    /// The name of the log.
    pub(crate) log: String,
    /// Its script, if the match has begun.
    pub(crate) script: Option<Script>,
    /// Who sits where, if the log's game file says that.
    pub(crate) names: Option<String>,
}

/// The name of the log of a match.
pub(crate) fn name_of(alloc: Global, name: &str, number: u64) -> Result<String, AllocError>
    ensures { IfOk result (λ log. string_bytes log ≡ log_name name.now number) }
{
    let ending = format!(in alloc; ".{number}")?;
    let mut log = String::from_str(alloc, name)?;
    log.push_str(ending.as_str())?;
    Ok(log)
}

/// What the logs of the descriptions' matches hold. This process takes them.
pub(crate) fn read_pasts<F: Files, N: Network>(
    alloc: Global,
    descriptions: &[Vec<u8>],
    files: &mut F,
    network: &mut N,
    name: &str,
) -> Result<Vec<Past>, ServingFault>
    ensures as_many { IfOk result (λ pasts. length pasts.items ≡ length descriptions.now) }
    ensures logs { IfOk result (λ pasts.
        AreLogs (λ number. F.told files.old (log_name name.now number)) (pasts_in pasts.items)) }
{
    let mut pasts = Vec::with_capacity(alloc, descriptions.len())?;
    for (index, description) in descriptions.iter().enumerate() {
        let log = name_of(alloc, name, index as u64 + 1)?;
        let past = take_past(alloc, description.as_slice(), files, network, log)?;
        pasts.push(past)?;
    }
    Ok(pasts)
}

/// What the log of this name holds of a match of this text. This process takes it.
fn take_past<F: Files, N: Network>(
    alloc: Global,
    text: &[u8],
    files: &mut F,
    network: &mut N,
    log: String,
) -> Result<Past, ServingFault>
    ensures log { IfOk result (λ past. IsLogOf (F.told files.old (string_bytes log)) (past_in_code past)) }
    ensures kept { KeepsFiles (F.told files.old) (F.told files.new) }
{
    let names = take_log(alloc, network, log.as_str(), text)?;
    match files.read_file(alloc, log.as_str(), usize::MAX)? {
        Input::Whole(bytes) => {
            let script = script_in(alloc, bytes.as_slice())?;
            Ok(Past { log, script, names })
        }
        Input::TooLong => Err(ServingFault::Device),
        Input::Device => Err(ServingFault::Device),
    }
}

/// The script that these bytes of a log hold, if its match has begun. A last line that isn't whole is left out.
fn script_in(alloc: Global, bytes: &[u8]) -> Result<Option<Script>, ServingFault>
    ensures { IfOk result (λ script. (known : Option (List ℕ)) → MayBe known bytes.now →
        IsLogOf known (option_map script_of script)) }
{
    let lines = whole_lines(bytes);
    if lines.is_empty() {
        return Ok(None);
    }
    let script = read_script(alloc, lines)?;
    are_whole(script.events.as_slice())?;
    Ok(Some(script))
}

/// Whether each message is whole, as in each log of a hall. If not, its line is not of its form.
fn are_whole(events: &[Event<Vec<u8>>]) -> Result<(), ServingFault> {
    for (index, event) in events.iter().enumerate() {
        if !is_whole(event) {
            return Err(ServingFault::Script(index.saturating_add(2)));
        }
    }
    Ok(())
}

/// Whether an event leaves no message that isn't whole.
fn is_whole(event: &Event<Vec<u8>>) -> bool {
    match event {
        Event::Piece { bytes, .. } => bytes.is_empty() || bytes.as_slice().ends_with(b"\0"),
        Event::Ended { .. } => true,
        Event::Tick { .. } => true,
    }
}

/// The config of the matches that have begun, or this one, if none has. All have the same one.
pub(crate) fn config_in(pasts: &[Past], usual: Config) -> Result<Config, ServingFault>
    ensures is { IfOk result (λ config. config ≡ config_from usual (pasts_in pasts.now)) }
    ensures all { IfOk result (λ config. All (HasConfig config) (pasts_in pasts.now)) }
{
    let config = first_config(pasts, usual);
    for past in pasts {
        if !has_config(past, config) {
            return Err(ServingFault::Script(1));
        }
    }
    Ok(config)
}

/// The config of the first match that has begun, or this one, if none has.
fn first_config(pasts: &[Past], usual: Config) -> Config
    ensures { result ≡ config_from usual (pasts_in pasts.now) }
{
    for past in pasts {
        match &past.script {
            Some(script) => return config_of(script.config),
            None => (),
        }
    }
    usual
}

/// Whether a match has this config, if it has begun.
fn has_config(past: &Past, config: Config) -> bool
    ensures { IsTrue result → HasConfig config (past_in_code past.now) }
{
    match &past.script {
        Some(script) => config_of(script.config) == config,
        None => true,
    }
}
