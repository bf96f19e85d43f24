//! A log in memory takes bytes whole if it has room for them, and otherwise none of them.

use rbg_serving::{BoundedLog, Log};
use std::alloc::Global;

/// Whether a log of five bytes takes three bytes, not three more, and then two.
fn takes_what_fits(alloc: Global) -> bool {
    let mut log = BoundedLog::new(alloc, 5);
    log.append(b"abc").is_ok()
        && log.append(b"def").is_err()
        && log.append(b"de").is_ok()
        && log.bytes() == b"abcde".as_slice()
}

#[test]
fn a_full_log_takes_nothing(rt: HostRuntime) {
    assert!(rt; takes_what_fits(rt.alloc()));
}
