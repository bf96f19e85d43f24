//! Names and numbers of a description, with their offsets in the text.
ghost use Rattle.std.specs.Prelude.{IsTrue};
ghost use Rattle.rbg_base.specs.Names.{is_name};

/// A name of the language, whose bytes are borrowed, and its offset in the text, in bytes.
#[derive(Clone, Copy, PartialEq, Eq)]
pub struct Name<'a> {
    pub text: &'a [u8],
    pub at: usize,
    pub ghost valid: { IsTrue (is_name text.now) },
}

/// A number, and its offset in the text, in bytes.
#[derive(Clone, Copy, PartialEq, Eq)]
pub struct Number {
    /// None if the number is 2^64 or more.
    pub value: Option<u64>,
    pub at: usize,
}
