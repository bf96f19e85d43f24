//! What the program does with its words, its files, its connections and its input: the lines that it prints, or the
//! fault.
ghost use Rattle.std.specs.Prelude.{◌≡◌, Some, map, string_bytes};
ghost use Rattle.rbg_cli.specs.Runs.{IsRunFor};
ghost use Rattle.rbg_cli.specs.Wishes.{IsReadAs, wish_of};
ghost use Rattle.rbg_cli.specs.Words.{Asks, Wish};

use crate::ask::run_ask;
use crate::command::Command;
use crate::demo::run_demo;
use crate::devices::Devices;
use crate::hall::run_hall;
use crate::play::run_play;
use crate::reading::read_command;
use crate::serve::run_serve;
use crate::words::asked_by;
use rbg_console::{Files, Status, WordsError, write_words};
use rbg_hosting::{run_cut, run_hall_script, run_script};
use rbg_network::Network;
use rbg_operations::{
    RecordedFiles, run_check, run_match, run_migrate, run_moves, run_moves_after, run_recorded,
    run_replay,
};
use rbg_referee::run_referee;
use std::alloc::Global;
use std::io::{Read, Write};

/// Runs the program: reads what its words ask for, writes the lines, and returns the status. What is wrong with words that
/// are no command is told, and nothing is written.
pub fn run<F: Files, N: Network, R: Read, W: Write>(
    alloc: Global,
    words: &[String],
    devices: &mut Devices<F, N, R, W>,
) -> Status
    ensures { (wish : Wish) → Asks (map string_bytes words.now) wish →
        IsRunFor wish F.knows_new (F.told devices.old.files) (F.told devices.new.files)
        (R.remaining devices.old.input) (R.remaining devices.new.input)
        (W.contents devices.old.output) (W.contents devices.new.output) result }
{
    match read(alloc, words) {
        Ok(command) => obey(alloc, command, devices),
        Err(error) => write_words(&mut devices.files, &mut devices.output, &error, b"memory\n"),
    }
}

/// The command that the words ask for: what they are judged to ask for, or else what the command line makes of them.
fn read<'a>(alloc: Global, words: &'a [String]) -> Result<Command<'a>, WordsError>
    ensures { (wish : Wish) → Asks (map string_bytes words.now) wish → IsReadAs wish result }
{
    match asked_by(words) {
        Some(command) => Ok(command),
        None => read_command(alloc, words),
    }
}

/// Does what a command asks for.
fn obey<F: Files, N: Network, R: Read, W: Write>(
    alloc: Global,
    command: Command<'_>,
    devices: &mut Devices<F, N, R, W>,
) -> Status
    ensures { (wish : Wish) → wish_of command.entry ≡ Some wish →
        IsRunFor wish F.knows_new (F.told devices.old.files) (F.told devices.new.files)
        (R.remaining devices.old.input) (R.remaining devices.new.input)
        (W.contents devices.old.output) (W.contents devices.new.output) result }
{
    let files = &mut devices.files;
    let input = &mut devices.input;
    let output = &mut devices.output;
    match command {
        Command::Check { file } => run_check(alloc, file, files, output),
        Command::Moves { file } => run_moves(alloc, file, files, output),
        Command::MovesAfter { file, record_file } => {
            run_moves_after(alloc, file, record_file, files, output)
        }
        Command::Ask { file } => run_ask(alloc, file, devices),
        Command::RefereeInput => run_referee(alloc, input, output),
        Command::Referee { file } => run_match(alloc, file, files, input, output),
        Command::Recorded { file, target } => {
            run_recorded(alloc, RecordedFiles { file, target }, files, input, output)
        }
        Command::Cut { file } => run_cut(alloc, file, files, input, output),
        Command::Replay { file, record_file } => {
            run_replay(alloc, file, record_file, files, output)
        }
        Command::Migrate { file, record_file } => {
            run_migrate(alloc, file, record_file, files, output)
        }
        Command::Script { record_file } => run_script(alloc, record_file, files, output),
        Command::Demo { file, service } => run_demo(alloc, file, service, devices),
        Command::Serve(served) => run_serve(alloc, &served, devices),
        Command::Play(seat) => run_play(alloc, seat, devices),
        Command::Hall(served) => run_hall(alloc, &served, devices),
        Command::HallScript { names } => {
            run_hall_script(alloc, names.as_slice(), files, input, output)
        }
    }
}
