//! A description and a script in one text, with the line `%%` between them.
ghost use Rattle.std.specs.Prelude.{◌≡◌, ℕ, ◌-◌, ◌≤◌, List, length, take, IfSome, IfNone};
ghost use Rattle.rbg_script.specs.Inputs.{IsInput};

use rbg_wire::cut_at;

/// The line between the description and the script.
const MARK: &[u8] = b"%%";

/// A description and a script.
#[derive(Clone, Copy)]
pub struct TwoTexts<'a> {
    pub description: &'a [u8],
    pub script: &'a [u8],
}

/// The bytes before the first line that is exactly `%%`, and the bytes after it. The line may end the input.
///
/// Returns None if there is no such line.
pub fn cut_at_mark(input: &[u8]) -> Option<TwoTexts<'_>>
    ensures found { IfSome result (λ texts. IsInput input.now texts.description.now texts.script.now) }
    ensures none { IfNone result ((description script : List ℕ) → IsInput input.now description script → ⊥) }
{
    let mut left = input;
    while let Some((line, rest)) = cut_at(b'\n', left) {
        if line == MARK {
            return Some(before(input, left, rest));
        }
        left = rest;
    }
    if left == MARK {
        Some(before(input, left, &[]))
    } else {
        None
    }
}

// The bytes before the last ones of an input, and a script.
fn before<'a>(input: &'a [u8], last: &[u8], script: &'a [u8]) -> TwoTexts<'a>
    requires { length last.now ≤ length input.now }
    ensures description { result.description.now ≡ take (length input.now - length last.now) input.now }
    ensures script { result.script.now ≡ script.now }
{
    TwoTexts {
        description: &input[..input.len() - last.len()],
        script,
    }
}
