//! Reading a whole input, up to a limit.
ghost use Rattle.std.specs.Prelude.{◌<◌, IfOk, length};
ghost use Rattle.rbg_console.specs.Inputs.{IsReading};

use std::alloc::{AllocError, Global};
use std::io::{ErrorKind, Read};

/// The maximum number of bytes of standard input.
pub const MAX_INPUT: usize = 16_777_216;

/// After this many reads a reading ends with a fault of the device.
const MAX_READS: u32 = 20_000_000;

/// How many bytes one read asks for.
const CHUNK: usize = 65_536;

/// The result of a reading.
#[derive(Drop)]
pub enum Input {
    /// All the bytes that there are.
    Whole(Vec<u8>),
    /// There are more bytes than the limit.
    TooLong,
    /// The device failed, or gave no end.
    Device,
}

/// Reads to the end, or until more than `limit` bytes have come.
pub fn read_input<R: Read>(alloc: Global, reader: &mut R, limit: usize) -> Result<Input, AllocError>
    ensures { IfOk result (IsReading limit (R.remaining reader.old) (R.remaining reader.new)) }
{
    let mut chunk = vec![in alloc; 0u8; CHUNK]?;
    read_chunks(alloc, reader, chunk.as_mut_slice(), limit)
}

/// Reads in chunks, each as large as the free room of the buffer.
fn read_chunks<R: Read>(
    alloc: Global,
    reader: &mut R,
    room: &mut [u8],
    limit: usize,
) -> Result<Input, AllocError>
    requires { 0 < length room.old }
    ensures { IfOk result (IsReading limit (R.remaining reader.old) (R.remaining reader.new)) }
{
    let mut bytes = Vec::new(alloc);
    for _ in 0..MAX_READS {
        match reader.read(room) {
            Ok(0) => return Ok(Input::Whole(bytes)),
            Ok(count) => {
                bytes.extend_from_slice(&room[..count])?;
                if bytes.len() > limit {
                    return Ok(Input::TooLong);
                }
            }
            Err(fault) => {
                if fault.kind() != ErrorKind::Interrupted {
                    return Ok(Input::Device);
                }
            }
        }
    }
    Ok(Input::Device)
}
