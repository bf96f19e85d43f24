//! No message of one or two bytes is a move: the mover that sends it is sent a refusal, whatever the bytes are.
use rbg_match::{Config, MAX_REFUSALS};
use rbg_referee::referee;
use rbg_script::Event;
use std::alloc::Global;
use std::test::Fail;

/// White takes its cell and scores, and then black takes its own cell.
const TEXT: &[u8] = b"#players = white(100), black(100)
#pieces = e, w, b
#board = rectangle(up,down,left,right,[e,e])
#rules = ->white {e}[w][$ white=100] ->black right {e}[b] ->> {}
";

const CONFIG: Config = Config {
    turn_ms: 1000,
    refusals: MAX_REFUSALS,
};

/// What white is sent before its turn. Black is sent as many bytes.
const OPENING: &[u8] = b"W1 white\0G#players = white(100), black(100)
#pieces = e, w, b
#board = rectangle(up,down,left,right,[e,e])
#rules = ->white {e}[w][$ white=100] ->black right {e}[b] ->> {}
\0L1000 100\0M0 1\0";

/// The last bytes of the messages to one match: the first one and the last. A match allows 100 refusals.
const LAST: [(u8, u8); 3] = [(1, 85), (86, 170), (171, 255)];

/// How many messages a match receives.
const HEARD: usize = 85;

/// Messages of the same first bytes and each of these last ones.
fn messages(alloc: Global, first: &[u8], last: (u8, u8)) -> Result<Vec<u8>, Fail> {
    let mut bytes = Vec::new(alloc);
    let (from, to) = last;
    for byte in from..=to {
        bytes.extend_from_slice(first)?;
        bytes.push(byte)?;
        bytes.push(0)?;
    }
    Ok(bytes)
}

/// What white is sent in all if each message is refused.
fn refused(alloc: Global) -> Result<Vec<u8>, Fail> {
    let mut bytes = Vec::from_slice(alloc, OPENING)?;
    for _ in 0..HEARD {
        bytes.extend_from_slice(b"R1\0")?;
    }
    Ok(bytes)
}

/// Whether a match in which white sends these messages sends white this, and black nothing after the opening.
fn is_sent(alloc: Global, messages: &[u8], sent: &[u8]) -> bool {
    let events = [Event::Piece {
        source: 1,
        at: 0,
        bytes: messages,
    }];
    match referee(alloc, TEXT, CONFIG, 0, &events) {
        Ok(outbox) => {
            outbox.seats() == 2 && outbox.bytes(1) == sent && outbox.bytes(2).len() == OPENING.len()
        }
        Err(_) => false,
    }
}

/// Whether each message of these first bytes and one more is refused.
fn are_refused(alloc: Global, first: &[u8], sent: &[u8]) -> Result<bool, Fail> {
    for last in LAST {
        let heard = messages(alloc, first, last)?;
        if !is_sent(alloc, &heard, sent) {
            return Ok(false);
        }
    }
    Ok(true)
}

#[test]
fn messages_of_one_byte_and_of_two_are_refused(rt: HostRuntime) -> Result<(), Fail> {
    let sent = refused(rt.alloc())?;
    assert!(rt; are_refused(rt.alloc(), &[], &sent)?);
    for byte in 1..=u8::MAX {
        assert!(rt; are_refused(rt.alloc(), &[byte], &sent)?, "behind {byte}");
    }
    Ok(())
}
