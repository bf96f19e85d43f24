//! The program `rbg_author`: help for authors of games of Regular Boardgames.
#![tactic(auto)]

use rbg_author::{AuthorReader, play_of, print, run};
use rbg_console::{Status, SystemFiles, words};
use rbg_workbench::play;
use std::io;
use std::process::ExitCode;

fn main(rt: HostRuntime) -> ExitCode {
    let mut files = SystemFiles::new(&rt);
    let mut output = io::writer(&rt);
    let status = match words(&rt) {
        Ok(words) => obey(&rt, &words),
        Err(error) => print(&mut files, &mut output, &Err(error)),
    };
    ExitCode::from(status.code())
}

/// Does what the words say. The page is served here, where there is a network.
fn obey(rt: &HostRuntime, words: &[String]) -> Status {
    if let Some(page) = play_of(rt.alloc(), words) {
        return play(rt, AuthorReader, page.file, page.port);
    }
    let mut files = SystemFiles::new(rt);
    run(
        rt.alloc(),
        words,
        &mut files,
        &mut rt.stdin(),
        &mut io::writer(rt),
    )
}
