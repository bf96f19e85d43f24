//! Where the records of a hall's matches are kept.
ghost use Rattle.std.specs.Prelude.{◌≡◌, List, [], IfOk, IfSome};
ghost use Rattle.rbg_network.specs.Archives.{Handed};

use crate::{Keeping, ServingFault};
use rbg_network::{Archive, Network};

/// The archive for the records of matches, if they are to be kept.
pub(crate) fn open_archive<N: Network>(
    network: &mut N,
    keeping: &Keeping<'_>,
) -> Result<Option<N::Archive>, ServingFault>
    ensures { IfOk result (λ archive. IfSome archive (λ one. N.Archive.handed one [])) }
{
    match keeping.records {
        Some(directory) => Ok(Some(network.open_archive(directory)?)),
        None => Ok(None),
    }
}

/// Makes an archive ready for the records of so many matches, which may go on.
pub(crate) fn begin_records<A: Archive>(
    archive: &mut A,
    matches: usize,
    goes_on: bool,
) -> Result<(), ServingFault>
    ensures handed { (so_far : List Handed) → A.handed archive.old so_far → A.handed archive.new so_far }
    ensures wants { A.wants archive.new ≡ A.wants archive.old }
{
    for index in 0..matches {
        archive.begin(index as u64 + 1, goes_on)?;
    }
    Ok(())
}
