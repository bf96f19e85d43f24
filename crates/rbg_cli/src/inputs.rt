//! The descriptions that the program reads.

ghost use Rattle.std.specs.Prelude.{IfOk};
ghost use Rattle.rbg_console.specs.Files.{MayBe};

use crate::fault::Fault;
use rbg_console::{Files, Input};
use rbg_game::LoadError;
use rbg_macro::{MAX_TEXT, TextError};
use std::alloc::Global;

/// The text of the description that a file has.
pub fn read_description<F: Files>(
    alloc: Global,
    files: &mut F,
    name: &str,
) -> Result<Vec<u8>, Fault>
    ensures { IfOk result (λ text. MayBe (F.told files.old name.now) text.items) }
{
    match files.read_file(alloc, name, MAX_TEXT)? {
        Input::Whole(text) => Ok(text),
        Input::TooLong => Err(Fault::from(LoadError::Text(TextError::TooLong))),
        Input::Device => Err(Fault::Device),
    }
}
