//! The documents that an editor has open.

use crate::edits::replaced;
use crate::lines::Lines;
use crate::message_fields::{position_at, text_at};
use serde_json::Value;
use std::alloc::{AllocError, Global};

/// A document that an editor has open.
#[derive(Drop)]
pub(crate) struct Document {
    uri: String,
    text: Vec<u8>,
    /// The number that the editor gave the text, if it gave one.
    version: Option<i64>,
}

/// The documents that are open.
pub(crate) struct Documents {
    alloc: Global,
    documents: Vec<Document>,
}

/// Written by hand: dropping the documents is then one call in the proofs of their owners.
impl Drop for Documents {
    fn drop(self) {
        let Documents {
            alloc: _,
            documents: _,
        } = self;
    }
}

impl Document {
    pub fn uri(&self) -> &str {
        &self.uri
    }

    pub fn text(&self) -> &[u8] {
        &self.text
    }

    pub fn version(&self) -> Option<i64> {
        self.version
    }

    /// Makes a change: a part of the text, or all of it.
    fn change(&mut self, alloc: Global, change: &Value) -> Result<(), AllocError> {
        let Some(bytes) = text_at(change, "/text") else {
            return Ok(());
        };
        match change.pointer("/range") {
            Some(range) => self.change_part(alloc, range, bytes.as_bytes()),
            None => {
                self.text = Vec::from_slice(alloc, bytes.as_bytes())?;
                Ok(())
            }
        }
    }

    /// Puts bytes in place of a part of the text.
    fn change_part(
        &mut self,
        alloc: Global,
        range: &Value,
        bytes: &[u8],
    ) -> Result<(), AllocError> {
        let start = position_at(range, "/start/line", "/start/character");
        let end = position_at(range, "/end/line", "/end/character");
        if let (Some(start), Some(end)) = (start, end) {
            let lines = Lines::of(alloc, &self.text)?;
            let start = lines.offset_of(&self.text, start);
            let end = lines.offset_of(&self.text, end);
            self.text = changed(alloc, &self.text, start, end, bytes)?;
        }
        Ok(())
    }
}

/// The text with other bytes in place of those between two offsets.
fn changed(
    alloc: Global,
    text: &[u8],
    start: usize,
    end: usize,
    bytes: &[u8],
) -> Result<Vec<u8>, AllocError> {
    let end = end.min(text.len());
    let start = start.min(end);
    replaced(alloc, text, start, end, bytes)
}

impl Documents {
    /// None is open.
    pub fn new(alloc: Global) -> Documents {
        Documents {
            alloc,
            documents: Vec::new(alloc),
        }
    }

    /// The document with this URI.
    pub fn find(&self, uri: &str) -> Option<&Document> {
        self.documents.as_slice().get(self.index_of(uri)?)
    }

    fn index_of(&self, uri: &str) -> Option<usize> {
        for (index, document) in self.documents.iter().enumerate() {
            if document.uri.as_str() == uri {
                return Some(index);
            }
        }
        None
    }

    /// Opens a document.
    pub fn open(&mut self, message: &Value) -> Result<(), AllocError> {
        let uri = text_at(message, "/params/textDocument/uri");
        let text = text_at(message, "/params/textDocument/text");
        if let (Some(uri), Some(text)) = (uri, text) {
            self.close(uri);
            self.documents.push(Document {
                uri: String::from_str(self.alloc, uri)?,
                text: Vec::from_slice(self.alloc, text.as_bytes())?,
                version: version_of(message),
            })?;
        }
        Ok(())
    }

    /// Closes a document.
    pub fn close(&mut self, uri: &str) {
        self.documents
            .retain(|document| document.uri.as_str() != uri);
    }

    /// Makes the changes of a document.
    pub fn change(&mut self, uri: &str, message: &Value) -> Result<(), AllocError> {
        let Some(index) = self.index_of(uri) else {
            return Ok(());
        };
        let alloc = self.alloc;
        match self.documents.as_mut_slice().get_mut(index) {
            Some(document) => change_all(alloc, document, message),
            None => Ok(()),
        }
    }
}

/// Makes the changes of a document, one after the other.
fn change_all(alloc: Global, document: &mut Document, message: &Value) -> Result<(), AllocError> {
    document.version = version_of(message);
    let Some(changes) = message.pointer("/params/contentChanges") else {
        return Ok(());
    };
    let Some(changes) = changes.as_array() else {
        return Ok(());
    };
    for change in changes {
        document.change(alloc, change)?;
    }
    Ok(())
}

fn version_of(message: &Value) -> Option<i64> {
    message.pointer("/params/textDocument/version")?.as_i64()
}
