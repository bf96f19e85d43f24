//! The words of the command line, read as a command.

use crate::command::{Bound, Command, Seat, ServedHall, ServedMatch, Service};
use crate::command_line::rbg_command;
use clap::ArgMatches;
use rbg_console::{WordsError, match_words};
use rbg_hosting::{Keeping, Serving};
use rbg_match::Config;
use rbg_network::Hosting;
use std::alloc::{AllocError, Global};

/// The defaults of the options.
const USUAL_TURN: u64 = 60_000;

const USUAL_REFUSALS: u32 = 3;

const USUAL_ROUNDS: u64 = 100_000;

/// Reads the words of the command line, without the program's name.
pub fn read_command<'a>(alloc: Global, words: &'a [String]) -> Result<Command<'a>, WordsError> {
    let matches = match_words(alloc, rbg_command(alloc)?, words)?;
    let Some((command, words)) = matches.subcommand() else {
        return Ok(Command::RefereeInput);
    };
    match command {
        "hall" => Ok(Command::Hall(ServedHall {
            names: names_of(alloc, words)?,
            serving: serving_of(words),
        })),
        "hallscript" => Ok(Command::HallScript {
            names: names_of(alloc, words)?,
        }),
        _ => Ok(command_of(command, words)),
    }
}

/// What a command asks for, other than those of a hall.
fn command_of<'a>(command: &str, words: &ArgMatches<'a>) -> Command<'a> {
    match command {
        "check" => Command::Check {
            file: text_of(words, "FILE"),
        },
        "moves" => moves_of(words),
        "ask" => Command::Ask {
            file: text_of(words, "FILE"),
        },
        "replay" => Command::Replay {
            file: text_of(words, "FILE"),
            record_file: text_of(words, "RECORD"),
        },
        "migrate" => Command::Migrate {
            file: text_of(words, "FILE"),
            record_file: text_of(words, "RECORD"),
        },
        "script" => Command::Script {
            record_file: text_of(words, "RECORD"),
        },
        "demo" => Command::Demo {
            file: text_of(words, "FILE"),
            service: service_of(words),
        },
        "serve" => Command::Serve(ServedMatch {
            file: text_of(words, "FILE"),
            serving: serving_of(words),
        }),
        "play" => Command::Play(Seat {
            port: port_of(words),
            table: words.get_one("match"),
            bound: bound_of(words),
        }),
        _ => referee_of(words),
    }
}

/// What the command `moves` asks for.
fn moves_of<'a>(words: &ArgMatches<'a>) -> Command<'a> {
    let file = text_of(words, "FILE");
    match words.get_str("RECORD") {
        Some(record_file) => Command::MovesAfter { file, record_file },
        None => Command::Moves { file },
    }
}

/// What the command `referee` asks for. Words with both a record and `--cut` are refused before.
fn referee_of<'a>(words: &ArgMatches<'a>) -> Command<'a> {
    let file = words.get_str("FILE");
    if words.get_flag("cut") {
        return Command::Cut { file };
    }
    match (file, words.get_str("record")) {
        (_, Some(target)) => Command::Recorded { file, target },
        (Some(file), None) => Command::Referee { file },
        (None, None) => Command::RefereeInput,
    }
}

/// The text of an argument that the command requires. Words without it are refused before.
fn text_of<'a>(words: &ArgMatches<'a>, name: &str) -> &'a str {
    words.get_str(name).unwrap_or("")
}

/// The files' names.
fn names_of<'a>(alloc: Global, words: &ArgMatches<'a>) -> Result<Vec<&'a str>, AllocError> {
    words.get_strs("FILE").unwrap_or(&[]).to_vec(alloc)
}

/// The port, which the command requires.
fn port_of(words: &ArgMatches<'_>) -> u16 {
    words.get_one("port").unwrap_or(0)
}

fn bound_of(words: &ArgMatches<'_>) -> Bound {
    Bound {
        rounds: rounds_of(words),
        minutes: words.get_one("minutes"),
    }
}

fn rounds_of(words: &ArgMatches<'_>) -> u64 {
    words.get_one("rounds").unwrap_or(USUAL_ROUNDS)
}

fn hosting_of(words: &ArgMatches<'_>) -> Hosting {
    Hosting {
        port: port_of(words),
        wait: words.get_one("wait"),
        quiet: words.get_flag("quiet"),
    }
}

fn serving_of<'a>(words: &ArgMatches<'a>) -> Serving<'a> {
    Serving {
        config: config_of(words),
        rounds: rounds_of(words),
        keeping: keeping_of(words),
        hosting: hosting_of(words),
    }
}

fn keeping_of<'a>(words: &ArgMatches<'a>) -> Keeping<'a> {
    Keeping {
        log: words.get_str("log"),
        resume: words.get_str("resume"),
        sync: words.get_flag("sync"),
        minutes: words.get_one("minutes"),
        names: words.get_str("names"),
        records: words.get_str("records"),
    }
}

fn service_of(words: &ArgMatches<'_>) -> Service {
    Service {
        config: config_of(words),
        rounds: rounds_of(words),
        seed: words.get_one("random"),
    }
}

fn config_of(words: &ArgMatches<'_>) -> Config {
    Config {
        turn_ms: words.get_one("turn").unwrap_or(USUAL_TURN),
        refusals: words.get_one("refusals").unwrap_or(USUAL_REFUSALS),
    }
}
