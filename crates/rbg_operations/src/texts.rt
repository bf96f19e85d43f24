//! What was read for a command on files.

/// What was read for a command: of a description at most `MAX_TEXT` bytes, and of a script or a record at most
/// `MAX_INPUT`. None if there are more.
#[derive(Drop)]
pub(crate) struct Texts {
    pub description: Option<Vec<u8>>,
    /// The script or the record.
    pub told: Option<Vec<u8>>,
}
