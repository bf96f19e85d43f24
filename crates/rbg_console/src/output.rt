//! Writing the text of an answer.
ghost use Rattle.std.specs.Prelude.{OnErr, OnOk};
ghost use Rattle.std.specs.Io.KnownBytes.{Appends};
ghost use Rattle.rbg_console.specs.Outputs.{AppendsFront, IsWritten};

use crate::status::Status;
use std::io::{self, ErrorKind, Write};

/// After this many writes a writing ends with a fault of the device.
const MAX_WRITES: u32 = 20_000_000;

/// Writes the text and returns the status, or `Status::Device` if the output fails.
pub fn write_text<W: Write>(output: &mut W, text: &[u8], status: Status) -> Status
    ensures { IsWritten (W.contents output.old) (W.contents output.new) text.now status result }
{
    match write_and_flush(output, text) {
        Ok(()) => status,
        Err(_) => Status::Device,
    }
}

/// Writes the text. On an error a front part of it may be written.
pub(crate) fn write_and_flush<W: Write>(output: &mut W, text: &[u8]) -> io::Result<()>
    ensures ok { OnOk result (Appends (W.contents output.old) (W.contents output.new) text.now) }
    ensures err { OnErr result (AppendsFront (W.contents output.old) (W.contents output.new) text.now) }
{
    write_whole(output, text)?;
    output.flush()
}

/// Writes the text. On an error the front part that was written stays.
fn write_whole<W: Write>(output: &mut W, text: &[u8]) -> io::Result<()>
    ensures ok { OnOk result (Appends (W.contents output.old) (W.contents output.new) text.now) }
    ensures err { OnErr result (AppendsFront (W.contents output.old) (W.contents output.new) text.now) }
{
    let mut rest = text;
    for _ in 0..MAX_WRITES {
        if rest.is_empty() {
            return Ok(());
        }
        match output.write(rest) {
            Ok(0) => return Err(io::Error::from(ErrorKind::WriteZero)),
            Ok(count) => rest = &rest[count..],
            Err(error) => {
                if error.kind() != ErrorKind::Interrupted {
                    return Err(error);
                }
            }
        }
    }
    Err(io::Error::from(ErrorKind::TimedOut))
}
