//! The fields of messages, by their paths.

use crate::lines::Position;
use serde_json::Value;

/// The text at a path.
pub(crate) fn text_at<'a>(message: &'a Value, path: &str) -> Option<&'a str> {
    message.pointer(path)?.as_str()
}

/// The number at a path. A number above the maximum index becomes that maximum.
pub(crate) fn number_at(message: &Value, path: &str) -> Option<usize> {
    let number = message.pointer(path)?.as_u64()?;
    Some(usize::try_from(number).unwrap_or(usize::MAX))
}

/// The number of a line and that of a column, at these paths.
pub(crate) fn position_at(message: &Value, line: &str, column: &str) -> Option<Position> {
    Some(Position {
        line: number_at(message, line)?,
        column: number_at(message, column)?,
    })
}

/// The position that a request is about.
pub(crate) fn position_of(message: &Value) -> Option<Position> {
    position_at(
        message,
        "/params/position/line",
        "/params/position/character",
    )
}
