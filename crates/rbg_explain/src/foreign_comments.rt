//! Comments as other languages spell them.

/// Whether an offset is in what would be a comment elsewhere: after a `/*` without a `*/`, or after a `#` that begins its
/// line, without a `=` between them.
pub(crate) fn is_in_comment(text: &[u8], at: usize) -> bool {
    let before = text.get(..at).unwrap_or(&[]);
    is_block_open(before) || is_prose(last_line(before))
}

/// Whether a `/*` has no `*/` after it.
fn is_block_open(text: &[u8]) -> bool {
    let mut is_open = false;
    for pair in text.windows(2) {
        match pair {
            [b'/', b'*'] => is_open = true,
            [b'*', b'/'] => is_open = false,
            _ => {}
        }
    }
    is_open
}

/// What follows the last line feed.
fn last_line(text: &[u8]) -> &[u8] {
    let mut line = text;
    for (index, byte) in text.iter().enumerate() {
        if *byte == b'\n' {
            line = text.get(index.saturating_add(1)..).unwrap_or(&[]);
        }
    }
    line
}

/// Whether a line begins with `#` and has no `=`.
fn is_prose(line: &[u8]) -> bool {
    let mut first = b' ';
    for byte in line {
        if *byte == b'=' {
            return false;
        }
        if first == b' ' {
            first = *byte;
        }
    }
    first == b'#'
}
