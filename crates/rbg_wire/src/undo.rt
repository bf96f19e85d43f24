//! Taking back what a failed call wrote.
ghost use Rattle.std.specs.Prelude.{◌≡◌, ℕ, List, length};
ghost use Rattle.rbg_wire.specs.Writing.{Appends, AppendsAll};

use rbg_base::Memory;

/// Takes back the bytes after the first `len`, if the writing failed.
///
/// A writer that may stop in the middle of its text becomes one that writes all of it or nothing.
pub fn all_or_nothing(
    written: Result<(), Memory>,
    len: usize,
    out: &mut Vec<u8>,
) -> Result<(), Memory>
    ensures { (old text : List ℕ)
        → len ≡ length old
        → Appends old out.old.items text written
        → AppendsAll old out.new.items text result }
{
    if written.is_err() {
        out.truncate(len);
    }
    written
}
