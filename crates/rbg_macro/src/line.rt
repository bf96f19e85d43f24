//! The line of a text on which an offset is.
ghost use Rattle.std.specs.Prelude.{◌≡◌, ◌≤◌, ◌+◌, ◌-◌, take, drop, length};
ghost use Rattle.rbg_macro.specs.Lines.{line_feeds, IsLineStart, IsOneLine};

/// A line of a text.
#[derive(Clone, Copy)]
pub struct TextLine<'a> {
    /// Its number, from 1.
    pub number: usize,
    /// The offset of its first byte.
    pub start: usize,
    /// Its bytes, without its line feed.
    pub bytes: &'a [u8],
}

impl<'a> TextLine<'a> {
    /// The line that holds an offset.
    pub fn of(text: &'a [u8], at: usize) -> TextLine<'a>
        requires { at ≤ length text.now }
        ensures number { result.number ≡ 1 + line_feeds (take at text.now) }

        // No line feed is between the line's start and the offset.
        ensures start { result.start ≤ at }
        ensures begins { IsLineStart (take at text.now) result.start }
        ensures one_line { IsOneLine (drop result.start (take at text.now)) }
    {
        let start = line_start(text, at);
        let end = line_end(text, at);
        TextLine {
            number: count_line_feeds(&text[..at]) + 1,
            start,
            bytes: &text[start..end],
        }
    }
}

/// How many line feeds there are.
pub fn count_line_feeds(bytes: &[u8]) -> usize
    ensures count { result ≡ line_feeds bytes.now }
    ensures within { result ≤ length bytes.now }
{
    bytes.iter().filter(|byte| **byte == b'\n').count()
}

/// The offset after the last line feed before the offset, or 0.
fn line_start(text: &[u8], at: usize) -> usize
    requires { at ≤ length text.now }
    ensures before { result ≤ at }
    ensures begins { IsLineStart (take at text.now) result }
    ensures one_line { IsOneLine (drop result (take at text.now)) }
{
    match text[..at].iter().rposition(|byte| *byte == b'\n') {
        Some(line_feed) => line_feed + 1,
        None => 0,
    }
}

/// The offset of the first line feed from the offset on, or the text's end.
fn line_end(text: &[u8], at: usize) -> usize
    requires { at ≤ length text.now }
    ensures after { at ≤ result }
    ensures there { result ≤ length text.now }
{
    match text[at..].iter().position(|byte| *byte == b'\n') {
        Some(count) => at + count,
        None => text.len(),
    }
}
