//! A match from its log on.
ghost use Rattle.std.specs.Prelude.{◌≡◌, ℕ, List, length, IfOk};
ghost use Rattle.rbg_match.specs.PlayingOn.{seats_of};
ghost use Rattle.rbg_hosting.specs.Played.{IsPlayedMatch};
ghost use Rattle.rbg_referee.specs.Matches.{IsScriptPlayed};
ghost use Rattle.rbg_script.specs.Scripts.{script_of};

use crate::again::resume_match;
use crate::bounded::{MatchInPlay, play_on};
use crate::joining::{accept_players, tell_names, tell_stalled};
use crate::record::begin_record;
use crate::{Serving, ServingFault};
use rbg_console::{Files, Input};
use rbg_game::load;
use rbg_match::{Match, Outbox};
use rbg_network::{Network, News, take_log};
use rbg_referee::play_script;
use rbg_script::{Script, read_script};
use rbg_serving::{LaterClock, Log, LoggedMatch, cut_stumps, whole_lines};
use std::alloc::Global;

/// A match that is to go on.
#[derive(Clone, Copy)]
pub(crate) struct ResumedMatch<'a> {
    /// The description of its game.
    pub(crate) text: &'a [u8],
    /// The name of its log.
    pub(crate) log: &'a str,
    pub(crate) serving: &'a Serving<'a>,
}

/// A match that was stopped, as its log has it.
#[derive(Drop)]
struct Stopped {
    script: Script,
    /// Its last moment.
    moment: u64,
    seats: usize,
    /// Who plays, if the log's game file says that.
    names: Option<String>,
}

/// Goes on with a match of the text's game from its log, which this process takes, between the first players that connect
/// to the port. A match that has ended is given at once.
pub(crate) fn resume_text<F: Files, N: Network>(
    alloc: Global,
    resumed: ResumedMatch<'_>,
    files: &mut F,
    network: &mut N,
) -> Result<Match, ServingFault>
    ensures { IfOk result (λ played. IsPlayedMatch resumed.entry.text.now played) }
{
    load(alloc, resumed.text)?;
    begin_record(network, &resumed.serving.keeping)?;
    let names = take_log(alloc, network, resumed.log, resumed.text)?;
    let script = read_log(alloc, files, resumed.log)?;
    let played = stopped_match(alloc, resumed.text, &script)?;
    if played.outcome().is_some() {
        return Ok(played);
    }
    let stopped = Stopped {
        moment: played.moment(),
        seats: played.players(),
        script,
        names,
    };
    resume_stopped(alloc, resumed, stopped, network)
}

/// The script that a log holds, which may be of any size. A last line that isn't whole is left out.
fn read_log<F: Files>(alloc: Global, files: &mut F, name: &str) -> Result<Script, ServingFault> {
    match files.read_file(alloc, name, usize::MAX)? {
        Input::Whole(bytes) => Ok(read_script(alloc, whole_lines(bytes.as_slice()))?),
        Input::TooLong | Input::Device => Err(ServingFault::Device),
    }
}

/// The match where its script leaves it.
fn stopped_match(alloc: Global, text: &[u8], script: &Script) -> Result<Match, ServingFault>
    ensures { IfOk result (λ played. IsPlayedMatch text.now played) }
{
    let (played, _) = play_script(alloc, text, script)?;
    Ok(played)
}

/// Goes on with a match that was stopped.
fn resume_stopped<N: Network>(
    alloc: Global,
    resumed: ResumedMatch<'_>,
    stopped: Stopped,
    network: &mut N,
) -> Result<Match, ServingFault>
    ensures { IfOk result (λ played. IsPlayedMatch resumed.entry.text.now played) }
{
    let Stopped {
        mut script,
        moment,
        seats,
        names,
    } = stopped;
    cut_stumps(seats, moment, &mut script.events)?;
    let (logged, outbox) = begin_again(alloc, resumed, &script, network)?;
    let in_play = MatchInPlay {
        logged,
        outbox,
        moment,
    };
    go_on(alloc, network, resumed.serving, in_play, &names)
}

/// The match of a script, with a log that replaces the old one.
fn begin_again<N: Network>(
    alloc: Global,
    resumed: ResumedMatch<'_>,
    script: &Script,
    network: &mut N,
) -> Result<(LoggedMatch<N::Log>, Outbox), ServingFault>
    ensures resumed { IfOk result (λ made.
        IsScriptPlayed resumed.entry.text.now (script_of script.now) made.0.played made.1) }
    ensures played { IfOk result (λ made. IsPlayedMatch resumed.entry.text.now made.0.played) }
    ensures seats { IfOk result (λ made. length made.1 ≡ seats_of made.0.played.game) }
{
    let log = network.rewrite_log(resumed.log, resumed.serving.keeping.sync)?;
    let made = resume_match(alloc, resumed.text, script, log)?;
    network.replace_log(resumed.log)?;
    Ok(made)
}

/// Waits for the players of a match, and goes on with it from its moment. Who plays is told, if that is known.
fn go_on<N: Network, W: Log>(
    alloc: Global,
    network: &mut N,
    serving: &Serving<'_>,
    in_play: MatchInPlay<W>,
    names: &Option<String>,
) -> Result<Match, ServingFault>
    requires { length in_play.outbox ≡ seats_of in_play.logged.played.game }
    ensures { (text : List ℕ) → IsPlayedMatch text in_play.logged.played →
        IfOk result (λ played. IsPlayedMatch text played) }
{
    let players = in_play.logged.played().players();
    let mut lines = accept_players(alloc, network, players, serving)?;
    tell_names(network, serving, names);
    serving.hosting.tell(network, &News::GoesOn);
    let mut clock = LaterClock::new(network.start_clock()?, in_play.moment);
    let played = play_on(in_play, serving, lines.as_mut_slice(), &mut clock);
    tell_stalled(network, serving, lines.as_slice());
    played
}
