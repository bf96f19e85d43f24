//! The check of a text, which the caller provides.

use rbg_lint::Diagnostic;
use std::alloc::{AllocError, Global};

/// Finds the faults and the warnings of a text.
pub trait Judge {
    fn diagnostics(&self, alloc: Global, text: &[u8]) -> Result<Vec<Diagnostic>, AllocError>;
}
