//! The record of a match in a file of its own.

use crate::archive::open_archive;
use crate::{Keeping, ServingFault};
use rbg_network::{Archive, Network};

/// The number of a match that is served alone.
const NUMBER: u64 = 1;

/// Makes ready for the record of a match, if one is to be kept.
pub(crate) fn begin_record<N: Network>(
    network: &mut N,
    keeping: &Keeping<'_>,
) -> Result<(), ServingFault> {
    let mut archive = open_archive(network, keeping)?;
    archive.begin(NUMBER, keeping.resume.is_some())?;
    Ok(())
}

/// Keeps the record of a match that has ended, if that is wanted.
pub fn keep_record<N: Network>(
    network: &mut N,
    keeping: &Keeping<'_>,
    record: &[u8],
) -> Result<(), ServingFault> {
    let mut archive = open_archive(network, keeping)?;
    if archive.keep(NUMBER, record) {
        Ok(())
    } else {
        Err(ServingFault::Device)
    }
}
