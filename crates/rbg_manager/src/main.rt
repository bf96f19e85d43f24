//! The program `rbg`: a referee for games of Regular Boardgames.
#![tactic(auto)]

use rbg_cli::{Devices, SystemNetwork, run};
use rbg_console::{SystemFiles, words, write_words};
use std::io;
use std::process::ExitCode;

fn main(rt: HostRuntime) -> ExitCode {
    let mut files = SystemFiles::new(&rt);
    let mut output = io::writer(&rt);
    let status = match words(&rt) {
        Ok(words) => {
            let mut devices = Devices {
                files,
                network: SystemNetwork::new(&rt),
                input: rt.stdin(),
                output,
            };
            run(rt.alloc(), &words, &mut devices)
        }
        Err(error) => write_words(&mut files, &mut output, &error, b"memory\n"),
    };
    ExitCode::from(status.code())
}
