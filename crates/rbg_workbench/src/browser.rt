//! A game that is played in a browser, from the name of its file on.

use crate::bench::Bench;
use crate::reader::Reader;
use crate::server::Server;
use rbg_console::{Status, SystemFiles, write_text};
use std::io;

/// Serves the page on which the game of a file is played, on a port of 127.0.0.1; on one that the system chooses where the
/// port is 0. The link is printed. It ends only where the file can't be read at first, or the system fails.
pub fn play<R: Reader + Drop>(rt: &HostRuntime, reader: R, file: &str, port: u16) -> Status {
    match Bench::new(rt.alloc(), SystemFiles::new(rt), reader, file) {
        Ok(Some(mut bench)) => serve(rt, &mut bench, port),
        Ok(None) => Status::Device,
        Err(_) => write_text(&mut io::writer(rt), b"out of memory\n", Status::Memory),
    }
}

/// Serves a bench.
fn serve<R: Reader + Drop>(
    rt: &HostRuntime,
    bench: &mut Bench<'_, SystemFiles<'_>, R>,
    port: u16,
) -> Status {
    match serve_at(rt, bench, port) {
        Ok(()) => Status::Success,
        Err(error) => {
            let _said = eprintln!(rt; "can't serve: {error}");
            Status::Device
        }
    }
}

fn serve_at<R: Reader + Drop>(
    rt: &HostRuntime,
    bench: &mut Bench<'_, SystemFiles<'_>, R>,
    port: u16,
) -> io::Result<()> {
    let mut server = Server::listen(rt, port)?;
    let port = server.port();
    println!(rt; "http://127.0.0.1:{port}/")?;
    server.run(bench)
}
