//! Where a byte occurs in a text, and texts that are cut there or after another text.
ghost use Rattle.std.specs.Prelude.{◌≡◌, ℕ, List, ◌∷◌, ◌++◌, IfSome, IfNone};
ghost use Rattle.rbg_wire.specs.Bytes.{LacksByte, IsFirstPlace};

/// The index at which the byte occurs first.
pub(crate) fn first_place(byte: u8, text: &[u8]) -> Option<usize>
    ensures found { IfSome result (IsFirstPlace byte text.now) }
    ensures none { IfNone result (LacksByte byte text.now) }
{
    text.iter().position(|other| *other == byte)
}

/// The bytes before the first such byte, and those after it.
pub fn cut_at(byte: u8, bytes: &[u8]) -> Option<(&[u8], &[u8])>
    ensures found { IfSome result (λ parts.
        (bytes.now ≡ parts.0.now ++ byte ∷ parts.1.now) × LacksByte byte parts.0.now) }
    ensures none { IfNone result (LacksByte byte bytes.now) }
{
    let at = first_place(byte, bytes)?;
    Some((&bytes[..at], &bytes[at + 1..]))
}

/// The bytes after a text, if they begin with it.
pub fn after_text<'a>(text: &[u8], bytes: &'a [u8]) -> Option<&'a [u8]>
    ensures found { IfSome result (λ rest. bytes.now ≡ text.now ++ rest.now) }
    ensures none { IfNone result ((rest : List ℕ) → bytes.now ≡ text.now ++ rest → ⊥) }
{
    let rest = bytes.strip_prefix(text)?;
    Some(rest)
}

/// The text after the byte, if the text begins with it.
pub(crate) fn after_byte(byte: u8, text: &[u8]) -> Option<&[u8]>
    ensures found { IfSome result (λ rest. text.now ≡ byte ∷ rest.now) }
    ensures none { IfNone result ((rest : List ℕ) → text.now ≡ byte ∷ rest → ⊥) }
{
    let (first, rest) = text.split_first()?;
    if *first == byte { Some(rest) } else { None }
}
