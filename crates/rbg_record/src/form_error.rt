//! Why bytes are no record.

/// The first line of a record that is missing, or not of the form. Lines are numbered from 1.
#[derive(Clone, Copy)]
pub struct FormError {
    pub line: usize,
}
