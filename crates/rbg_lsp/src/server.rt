//! The server: how it handles each message.

use crate::answers::{Request, write_null};
use crate::documents::Documents;
use crate::judge::Judge;
use crate::message_fields::text_at;
use crate::notices::{write_diagnostics, write_none};
use crate::questions::{Question, answer, question_of};
use crate::reply::Reply;
use serde_json::Value;
use std::alloc::{AllocError, Global};
use std::str;

const PARSE_ERROR: i64 = -32700;

const INVALID_REQUEST: i64 = -32600;

const METHOD_NOT_FOUND: i64 = -32601;

const INVALID_PARAMS: i64 = -32602;

const NOT_INITIALIZED: i64 = -32002;

/// What the server can do, as the protocol names it.
const CAPABILITIES: [&str; 7] = [
    r#"{"capabilities":{"positionEncoding":"utf-16","textDocumentSync":{"openClose":true,"change":2},"#,
    r#""hoverProvider":true,"definitionProvider":true,"referencesProvider":true,"#,
    r#""renameProvider":{"prepareProvider":true},"#,
    r##""completionProvider":{"triggerCharacters":["#",">","{","[","$"]},"##,
    r#""documentSymbolProvider":true,"#,
    r#""documentFormattingProvider":true},"#,
    r#""serverInfo":{"name":"rbg_author"}}}"#,
];

/// The phase of the session with an editor.
#[derive(Clone, Copy, PartialEq, Eq)]
pub(crate) enum Phase {
    Beginning,
    Running,
    ShutDown,
    /// The editor asked for the end, after a shutdown or without one.
    Ended { was_shut_down: bool },
}

/// The server's side of a session with an editor.
pub(crate) struct Server {
    alloc: Global,
    documents: Documents,
    phase: Phase,
}

/// Written by hand: dropping a server is then one call in the proofs of its owners.
impl Drop for Server {
    fn drop(self) {
        let Server {
            alloc: _,
            documents: _,
            phase: _,
        } = self;
    }
}

impl Server {
    /// A server to which no message has come.
    pub fn new(alloc: Global) -> Server {
        Server {
            alloc,
            documents: Documents::new(alloc),
            phase: Phase::Beginning,
        }
    }

    pub fn phase(&self) -> Phase {
        self.phase
    }

    /// Takes the body of a message, and appends the messages for the editor to an output.
    pub fn hear<J: Judge>(
        &mut self,
        judge: &J,
        body: &[u8],
        output: &mut Vec<u8>,
    ) -> Result<(), AllocError> {
        let Ok(text) = str::from_utf8(body) else {
            return self.refuse(output);
        };
        match Value::from_str(self.alloc, text) {
            Ok(message) => self.handle(judge, &message, output),
            Err(error) if error.is_memory() => Err(AllocError),
            Err(_) => self.refuse(output),
        }
    }

    /// Answers bytes that are no message.
    fn refuse(&self, output: &mut Vec<u8>) -> Result<(), AllocError> {
        let mut reply = Reply::new(self.alloc);
        reply.error(None, PARSE_ERROR, "this is no JSON");
        reply.push_to(output)
    }

    /// Handles a message: a request, which has an id, or a notification. Answers of the editor are ignored.
    fn handle<J: Judge>(
        &mut self,
        judge: &J,
        message: &Value,
        output: &mut Vec<u8>,
    ) -> Result<(), AllocError> {
        let id = message.get("id");
        match (text_at(message, "/method"), id) {
            (Some(method), Some(id)) => {
                let request = Request {
                    method,
                    id,
                    message,
                };
                self.answer(request, output)
            }
            (Some(method), None) => self.notification(judge, method, message, output),
            (None, Some(_)) if message.get("result").is_some() || message.get("error").is_some() =>
                { Ok(()) }
            (None, id) => {
                let mut reply = Reply::new(self.alloc);
                reply.error(id, INVALID_REQUEST, "there is no method");
                reply.push_to(output)
            }
        }
    }

    /// Answers a request.
    fn answer(&mut self, request: Request<'_>, output: &mut Vec<u8>) -> Result<(), AllocError> {
        let mut reply = Reply::new(self.alloc);
        self.write_answer(request, &mut reply)?;
        reply.push_to(output)
    }

    /// Writes the answer to a request.
    fn write_answer(&mut self, request: Request<'_>, reply: &mut Reply) -> Result<(), AllocError> {
        let Request { method, id, .. } = request;
        match self.phase {
            Phase::Beginning if method == "initialize" => {
                self.phase = Phase::Running;
                reply.begin_result(Some(id));
                for part in CAPABILITIES {
                    reply.text(part);
                }
                Ok(())
            }
            Phase::Beginning => {
                reply.error(Some(id), NOT_INITIALIZED, "initialize comes first");
                Ok(())
            }
            Phase::Running if method == "shutdown" => {
                self.phase = Phase::ShutDown;
                write_null(reply, id);
                Ok(())
            }
            Phase::Running => self.write_running(request, reply),
            Phase::ShutDown | Phase::Ended { .. } => {
                reply.error(Some(id), INVALID_REQUEST, "the server was shut down");
                Ok(())
            }
        }
    }

    /// Writes the answer to a request between `initialize` and `shutdown`.
    fn write_running(&self, request: Request<'_>, reply: &mut Reply) -> Result<(), AllocError> {
        let Request { method, id, .. } = request;
        match question_of(method) {
            Some(question) => self.write_asked(question, request, reply),
            None if method == "initialize" => {
                reply.error(Some(id), INVALID_REQUEST, "initialize came before");
                Ok(())
            }
            None => {
                reply.error(Some(id), METHOD_NOT_FOUND, "there is no such method");
                Ok(())
            }
        }
    }

    /// Writes the answer to a question about a document.
    fn write_asked(
        &self,
        question: Question,
        request: Request<'_>,
        reply: &mut Reply,
    ) -> Result<(), AllocError> {
        let uri = text_at(request.message, "/params/textDocument/uri").unwrap_or("");
        match self.documents.find(uri) {
            Some(document) => answer(self.alloc, question, document, request, reply),
            None => {
                reply.error(Some(request.id), INVALID_PARAMS, "the document isn't open");
                Ok(())
            }
        }
    }

    /// Takes a notification. Those that the server doesn't know are ignored.
    fn notification<J: Judge>(
        &mut self,
        judge: &J,
        method: &str,
        message: &Value,
        output: &mut Vec<u8>,
    ) -> Result<(), AllocError> {
        if method == "exit" {
            self.phase = Phase::Ended {
                was_shut_down: self.phase == Phase::ShutDown,
            };
            return Ok(());
        }
        if self.phase != Phase::Running {
            return Ok(());
        }
        let uri = text_at(message, "/params/textDocument/uri").unwrap_or("");
        match method {
            "textDocument/didOpen" => {
                self.documents.open(message)?;
                self.publish(judge, uri, output)
            }
            "textDocument/didChange" => {
                self.documents.change(uri, message)?;
                self.publish(judge, uri, output)
            }
            "textDocument/didClose" => self.close(uri, output),
            _ => Ok(()),
        }
    }

    /// Sends the faults and the warnings of a document, if it is open.
    fn publish<J: Judge>(
        &self,
        judge: &J,
        uri: &str,
        output: &mut Vec<u8>,
    ) -> Result<(), AllocError> {
        let Some(document) = self.documents.find(uri) else {
            return Ok(());
        };
        let diagnostics = judge.diagnostics(self.alloc, document.text())?;
        let mut reply = Reply::new(self.alloc);
        write_diagnostics(self.alloc, document, &diagnostics, &mut reply)?;
        reply.push_to(output)
    }

    /// Closes a document, and sends that it has no faults and warnings any more.
    fn close(&mut self, uri: &str, output: &mut Vec<u8>) -> Result<(), AllocError> {
        if self.documents.find(uri).is_none() {
            return Ok(());
        }
        self.documents.close(uri);
        let mut reply = Reply::new(self.alloc);
        write_none(&mut reply, uri);
        reply.push_to(output)
    }
}
