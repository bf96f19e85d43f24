//! What a request is answered by: the status, the kind of the text, and the bytes that are sent.

use rbg_wire::write_number;
use std::alloc::AllocError;

/// The status of an answer.
#[derive(Clone, Copy)]
pub(crate) enum HttpStatus {
    Done,
    /// The bytes are no request.
    Malformed,
    /// The request comes from a page that isn't this server's.
    Forbidden,
    NotFound,
    /// The method is neither `GET` nor `POST`.
    NoMethod,
    /// The request hasn't come within its time.
    Late,
    /// The request is about something that has changed.
    Changed,
    /// The request, or what it asks for, is too long.
    TooLong,
    /// Out of memory.
    NoMemory,
}

impl HttpStatus {
    /// The line of an answer after its version.
    fn line(self) -> &'static str {
        match self {
            HttpStatus::Done => "200 OK",
            HttpStatus::Malformed => "400 Bad Request",
            HttpStatus::Forbidden => "403 Forbidden",
            HttpStatus::NotFound => "404 Not Found",
            HttpStatus::NoMethod => "405 Method Not Allowed",
            HttpStatus::Late => "408 Request Timeout",
            HttpStatus::Changed => "409 Conflict",
            HttpStatus::TooLong => "413 Content Too Large",
            HttpStatus::NoMemory => "503 Service Unavailable",
        }
    }
}

/// Of what kind the text of an answer is.
#[derive(Clone, Copy)]
pub(crate) enum ContentType {
    Page,
    Plain,
}

impl ContentType {
    fn name(self) -> &'static str {
        match self {
            ContentType::Page => "text/html",
            ContentType::Plain => "text/plain",
        }
    }
}

/// What stands before the text of an answer.
#[derive(Clone, Copy)]
pub(crate) struct Reply {
    pub status: HttpStatus,
    pub content: ContentType,
}

impl Reply {
    /// A text that isn't a page.
    pub fn plain(status: HttpStatus) -> Reply {
        Reply {
            status,
            content: ContentType::Plain,
        }
    }

    /// A page.
    pub fn page() -> Reply {
        Reply {
            status: HttpStatus::Done,
            content: ContentType::Page,
        }
    }
}

/// What each answer says: that the connection ends, and that a page takes nothing from elsewhere and stands in no other.
const SAID: &[u8] =
    b"Connection: close\r\nCache-Control: no-store\r\nX-Content-Type-Options: nosniff\r\nCross-Origin-Resource-Policy: same-origin\r\nReferrer-Policy: no-referrer\r\nContent-Security-Policy: default-src 'none'; script-src 'unsafe-inline'; style-src 'unsafe-inline'; connect-src 'self'; img-src data: blob:; frame-ancestors 'none'\r\n\r\n";

/// Appends an answer with this text. Where the text is missing, the line of the status stands in its place.
pub(crate) fn push_answer(reply: Reply, text: &[u8], out: &mut Vec<u8>) -> Result<(), AllocError> {
    let line = reply.status.line();
    let kind = reply.content.name();
    let body = if text.is_empty() {
        line.as_bytes()
    } else {
        text
    };
    let length = body.len();
    push_head(line, kind, length, out)?;
    out.extend_from_slice(SAID)?;
    out.extend_from_slice(body)
}

fn push_head(line: &str, kind: &str, length: usize, out: &mut Vec<u8>) -> Result<(), AllocError> {
    out.extend_from_slice(b"HTTP/1.1 ")?;
    out.extend_from_slice(line.as_bytes())?;
    out.extend_from_slice(b"\r\nContent-Type: ")?;
    out.extend_from_slice(kind.as_bytes())?;
    out.extend_from_slice(b"; charset=utf-8\r\n")?;
    push_length(length, out)
}

fn push_length(length: usize, out: &mut Vec<u8>) -> Result<(), AllocError> {
    out.extend_from_slice(b"Content-Length: ")?;
    write_number(length as u64, out)?;
    out.extend_from_slice(b"\r\n")
}
