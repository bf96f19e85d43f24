//! Whole messages are written into a script as pieces, also one that is too long.

use rbg_script::write_item;
use rbg_wire::Took;
use std::alloc::Global;

/// The most bytes of a message.
const LIMIT: usize = 3;

/// Whether an item of seat 2 at moment 7 is written as this line.
fn is_written(alloc: Global, took: Took<'_>, line: &[u8]) -> bool {
    let mut out = Vec::new(alloc);
    write_item(2, 7, took, LIMIT, &mut out).is_ok() && out.as_slice() == line
}

#[test]
fn an_item_is_written_as_a_piece(rt: HostRuntime) {
    let alloc = rt.alloc();
    assert!(rt; is_written(alloc, Took::Message(b"H1"), b"p 2 7 483100\n"));
    assert!(rt; is_written(alloc, Took::Message(b""), b"p 2 7 00\n"));
    assert!(rt; is_written(alloc, Took::TooLong, b"p 2 7 7878787800\n"));
}
