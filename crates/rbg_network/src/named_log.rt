//! Logs that name their match: each has a game file beside it, and one process holds it.
ghost use Rattle.std.specs.Prelude.{[], IfOk};

use crate::{Naming, Network, News, read_game, spell_game};
use std::alloc::{AllocError, Global};
use std::io::{self, ErrorKind};
use std::str;

/// What a new log is kept of.
#[derive(Clone, Copy)]
pub struct Named<'a> {
    /// The description of the game.
    pub description: &'a [u8],
    /// Who sits where, seat 1 first, with a comma between two names.
    pub names: Option<&'a str>,
}

/// Begins the log of a match in a new file of this name. Its game file is on the disk then, and this process holds the log.
/// With `sync` what is written to it is on the disk before the match goes on.
pub fn begin_log<N: Network>(
    alloc: Global,
    network: &mut N,
    name: &str,
    sync: bool,
    named: Named<'_>,
) -> io::Result<N::Log>
    ensures { IfOk result (λ log. N.Log.told log []) }
{
    let log = network.create_log(name, sync)?;
    let text = spell_game(alloc, named.description, named.names)?;
    network.write_game(name, text.as_slice())?;
    Ok(log)
}

/// Takes the log of a match that is to go on, for a match of this description: this process holds it then. Returns who
/// plays, if its game file says that. A log of another game, and one that another process holds, is an error. That a log
/// has no game file is told, as each error is.
pub fn take_log<N: Network>(
    alloc: Global,
    network: &mut N,
    name: &str,
    description: &[u8],
) -> io::Result<Option<String>> {
    network.hold_log(name)?;
    let Some(text) = network.read_game(name)? else {
        network.tell(&News::Unnamed { log: name });
        return Ok(None);
    };
    match read_game(alloc, text.as_slice(), description)? {
        Naming::This(names) => Ok(text_of(alloc, names)?),
        Naming::Other => {
            network.tell(&News::OtherGame { log: name });
            Err(io::Error::from(ErrorKind::InvalidData))
        }
    }
}

/// Names as a text, if they are one.
fn text_of(alloc: Global, names: Option<&[u8]>) -> Result<Option<String>, AllocError> {
    let Some(names) = names else {
        return Ok(None);
    };
    match str::from_utf8(names) {
        Ok(names) => Ok(Some(String::from_str(alloc, names)?)),
        Err(_) => Ok(None),
    }
}
