//! Cutting bytes into lines.
ghost use Rattle.std.specs.Prelude.{IfSome, IfNone};
ghost use Rattle.rbg_wire.specs.Bytes.{LacksByte};
ghost use Rattle.rbg_wire.specs.Lines.{line_feed};
ghost use Rattle.rbg_record.specs.NextLine.{IsFirstLine};

use rbg_wire::cut_at;

/// The text of the first line, without its line feed, and the bytes after that line.
///
/// Returns None if no line feed is left.
pub(crate) fn next_line(bytes: &[u8]) -> Option<(&[u8], &[u8])>
    ensures found { IfSome result (λ parts. IsFirstLine bytes.now parts.0.now parts.1.now) }
    ensures none { IfNone result (LacksByte line_feed bytes.now) }
{
    cut_at(b'\n', bytes)
}
