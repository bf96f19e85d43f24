//! Faults and warnings, with their places in a text.

use std::alloc::{AllocError, Global};

/// Whether a diagnostic is a fault or a warning.
#[derive(Clone, Copy, PartialEq, Eq)]
pub enum Severity {
    /// The text is refused.
    Fault,
    /// The text describes a game, which may be another one than its author meant.
    Warning,
}

/// A fault or a warning.
pub struct Diagnostic {
    /// The offset in the text of the first byte that it is about.
    pub start: usize,
    /// The offset after the last byte that it is about. It is `start` if the whole text is meant.
    pub end: usize,
    pub severity: Severity,
    /// A word for its kind.
    pub code: &'static str,
    /// A line of text without its line feed.
    pub message: Vec<u8>,
    /// Other places that it is about, in the order in which they are printed.
    pub related: Vec<Related>,
}

/// Written by hand: dropping a diagnostic is then one call in the proofs of its owners, not a step for each part.
impl Drop for Diagnostic {
    fn drop(self) {
        let Diagnostic {
            start: _,
            end: _,
            severity: _,
            code: _,
            message: _,
            related: _,
        } = self;
    }
}

/// Another place that a fault or a warning is about.
#[derive(Drop)]
pub struct Related {
    /// The offset in the text of the first byte of the place.
    pub start: usize,
    /// The offset after its last byte.
    pub end: usize,
    /// A line of text without its line feed.
    pub message: Vec<u8>,
}

impl Diagnostic {
    /// A fault or a warning of a kind about `width` bytes at an offset, with an empty message.
    pub fn new(
        alloc: Global,
        severity: Severity,
        code: &'static str,
        start: usize,
        width: usize,
    ) -> Diagnostic {
        Diagnostic {
            start,
            end: start.saturating_add(width),
            severity,
            code,
            message: Vec::new(alloc),
            related: Vec::new(alloc),
        }
    }

    /// Adds another place of `width` bytes at an offset, with its line of text.
    pub fn relate(
        &mut self,
        start: usize,
        width: usize,
        message: Vec<u8>,
    ) -> Result<(), AllocError> {
        let related = Related {
            start,
            end: start.saturating_add(width),
            message,
        };
        self.related.push(related)?;
        Ok(())
    }
}
