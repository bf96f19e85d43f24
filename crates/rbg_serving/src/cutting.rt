//! Cutting off a last line that isn't whole, as one that was being written when the machine stopped.
ghost use Rattle.rbg_serving.specs.Cutting.{AreWholeLines};

use rbg_wire::cut_at;

/// The whole lines of a text. What stands after its last line feed is left out.
pub fn whole_lines(text: &[u8]) -> &[u8]
    ensures { AreWholeLines text.now result.now }
{
    let mut left = text;
    while let Some((_, rest)) = cut_at(b'\n', left) {
        left = rest;
    }
    &text[..text.len() - left.len()]
}
