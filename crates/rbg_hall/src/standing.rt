//! How things stand with a table and its log.

/// How things stand with a table and its log. Once something has failed, the table hears nothing.
#[derive(Clone, Copy)]
pub(crate) enum Standing {
    /// All that the table heard was written and handled.
    Works,
    /// A write to the log failed.
    LogFailed,
    /// Memory ran out.
    OutOfMemory,
}
