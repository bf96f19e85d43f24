//! Why a line is no question.
ghost use Rattle.std.specs.Prelude.{◌≡◌};
ghost use Rattle.std.specs.List.{list_any};
ghost use Rattle.std.specs.Str.{bytes_eq};
ghost use Rattle.rbg_questions.specs.Misfits.{IsMisfit, first_word, is_question_word};

use crate::question_error::QuestionError;
use rbg_wire::cut_at;

/// The words with which questions begin.
const WORDS: [&str; 17] = [
    "moves", "make", "back", "heard", "place", "state", "key", "values", "board", "names", "shape",
    "random", "search", "sample", "pack", "unpack", "quit",
];

/// Why a line that is no question is none.
pub(crate) fn misfit_of(line: &[u8]) -> QuestionError
    ensures { IsMisfit line.now result }
{
    let Some((last, _)) = line.split_last() else {
        return QuestionError::Empty;
    };
    if *last == b'\r' {
        return QuestionError::Return;
    }
    if is_word(first_word(line)) {
        QuestionError::Form
    } else {
        QuestionError::Word
    }
}

/// The bytes before the first space.
fn first_word(line: &[u8]) -> &[u8]
    ensures { result.now ≡ first_word line.now }
{
    match cut_at(b' ', line) {
        Some((word, _)) => word,
        None => line,
    }
}

/// Whether a question begins with a word.
fn is_word(word: &[u8]) -> bool
    ensures { result ≡ is_question_word word.now }
{
    let words: [&str; 17] = WORDS;
    is_among(words.as_slice(), word)
}

/// Whether a word is one of these.
fn is_among(words: &[&str], word: &[u8]) -> bool
    ensures { result ≡ list_any (λ listed. bytes_eq listed.now word.now) words.now }
{
    words.iter().any(|listed| listed.as_bytes() == word)
}
