//! The command `hall`: several matches at once, between the players that connect to a port.

use crate::command::ServedHall;
use crate::devices::Devices;
use crate::fault::Fault;
use rbg_console::{Files, Status};
use rbg_hosting::serve_files;
use rbg_network::Network;
use rbg_referee::Answer;
use std::alloc::Global;
use std::io::Write;

/// Referees a match of each file's game at once, between the players that connect to the port and join it, and prints the
/// records. Where one of them is to be kept in a file too, and can't be, the status says so.
pub fn run_hall<F: Files, N: Network, R, W: Write>(
    alloc: Global,
    served: &ServedHall<'_>,
    devices: &mut Devices<F, N, R, W>,
) -> Status {
    let outcome = serve_hall(alloc, served, devices);
    devices.report("the records", &outcome)
}

/// Referees a match of each file's game at once, and returns the records.
fn serve_hall<F: Files, N: Network, R, W>(
    alloc: Global,
    served: &ServedHall<'_>,
    devices: &mut Devices<F, N, R, W>,
) -> Result<Answer, Fault> {
    let answer = serve_files(
        alloc,
        served.names.as_slice(),
        &mut devices.files,
        &mut devices.network,
        &served.serving,
    )?;
    Ok(answer)
}
