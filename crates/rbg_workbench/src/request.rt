//! A request: what it asks for, and whether it is let in.
ghost use Rattle.std.specs.Prelude.{◌≤◌, length, IfSome};

use crate::answer::HttpStatus;
use crate::request_fields::Fields;
use httparse::{EMPTY_HEADER, Error, Status as Parsed};

/// The most bytes of the body of a request.
pub(crate) const MAX_BODY: u64 = 1_048_576;

/// The most bytes of a head that hasn't ended.
const MAX_HEAD: usize = 16_384;

/// The most fields of a head.
const MAX_FIELDS: usize = 64;

/// What is done with a path.
#[derive(Clone, Copy)]
pub(crate) enum Method {
    Get,
    Post,
}

/// A request of a page of this server, or of no page.
#[derive(Clone, Copy)]
pub(crate) struct Request<'a> {
    pub method: Method,
    /// The path, with what stands after a `?`.
    pub path: &'a str,
    pub body: &'a [u8],
}

/// What the bytes of a connection are so far.
#[derive(Clone, Copy)]
pub(crate) enum Incoming<'a> {
    /// The beginning of a request.
    Part,
    Whole(Request<'a>),
    Refused(HttpStatus),
}

/// Hears the bytes that have come so far by a connection to this port.
pub(crate) fn read_request(port: u16, bytes: &[u8]) -> Incoming<'_> {
    let mut headers = [EMPTY_HEADER; MAX_FIELDS];
    let mut request = httparse::Request::new(&mut headers);
    match request.parse(bytes) {
        Ok(Parsed::Complete(head)) => {
            let fields = Fields::of(request.headers);
            let rest = bytes.get(head..).unwrap_or(&[]);
            read_whole(port, request.method, request.path, &fields, rest)
        }
        Ok(Parsed::Partial) => {
            if bytes.len() > MAX_HEAD {
                Incoming::Refused(HttpStatus::TooLong)
            } else {
                Incoming::Part
            }
        }
        Err(Error::TooManyHeaders) => Incoming::Refused(HttpStatus::TooLong),
        Err(_) => Incoming::Refused(HttpStatus::Malformed),
    }
}

/// Hears a request whose head is whole.
fn read_whole<'a>(
    port: u16,
    method: Option<&'a str>,
    path: Option<&'a str>,
    fields: &Fields<'a>,
    rest: &'a [u8],
) -> Incoming<'a> {
    if fields.is_wrong {
        return Incoming::Refused(HttpStatus::Malformed);
    }
    if !fields.is_let_in(port) {
        return Incoming::Refused(HttpStatus::Forbidden);
    }
    let Some(method) = method_of(method.unwrap_or("")) else {
        return Incoming::Refused(HttpStatus::NoMethod);
    };
    if fields.length > MAX_BODY {
        return Incoming::Refused(HttpStatus::TooLong);
    }
    match body_of(rest, fields.length) {
        Some(body) => Incoming::Whole(Request {
            method,
            path: path.unwrap_or("/"),
            body,
        }),
        None => Incoming::Part,
    }
}

fn method_of(name: &str) -> Option<Method> {
    match name {
        "GET" => Some(Method::Get),
        "POST" => Some(Method::Post),
        _ => None,
    }
}

/// The first bytes, if so many have come.
fn body_of(rest: &[u8], count: u64) -> Option<&[u8]>
    ensures { IfSome result (λ body. length body.now ≤ count) }
{
    rest.get(..count as usize)
}
