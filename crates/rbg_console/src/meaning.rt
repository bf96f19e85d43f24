//! What short lines of answers mean, in sentences for standard error.

/// How a line begins, and what it means then.
const MEANINGS: [(&[u8], &str); 9] = [
    (
        b"bad ",
        "bad: this line is the first that the game doesn't allow: a move that isn't legal or is another player's, or another end, name or moment",
    ),
    (
        b"form 0\n",
        "form 0: the record has more than 16777216 bytes",
    ),
    (
        b"form ",
        "form: this line is missing, or it is none that can be there",
    ),
    (
        b"over ",
        "over: to judge this line takes more than the limits of play allow",
    ),
    (
        b"over\n",
        "over: to find a move takes more than the limits of play allow, or the keeper makes 1000 moves in a row",
    ),
    (
        b"keeper\n",
        "keeper: the keeper makes 1000 moves in a row, and would go on",
    ),
    (
        b"script 0\n",
        "script 0: between description and script there is no line `%%`, or the input is too long",
    ),
    (
        b"script ",
        "script: this line is missing, or it is none that can be there",
    ),
    (
        b"refused ",
        "refused: `rbg_author explain` says for this file where and why",
    ),
];

/// What the only line of an answer means, if it is one of those that don't say it themselves.
pub fn meaning_of(line: &[u8]) -> Option<&'static str> {
    for (start, text) in MEANINGS {
        if line.starts_with(start) {
            return Some(text);
        }
    }
    None
}
