//! A line with its player in this process.
ghost use Rattle.std.specs.Prelude.{◌≡◌};

use crate::client::Client;
use rbg_network::{ClientError, StreamLine};
use rbg_serving::{Line, Polled, Put};
use std::io::{Read, Write};

/// A line whose player is in this process too. Before each poll the player has a turn.
#[derive(Drop)]
pub struct PlayedLine<S: Read + Write + Drop> {
    line: StreamLine<S>,
    /// The player, until it gives up. Then its end of the connection is closed.
    client: Option<Client<S>>,
    /// Why the player gave up.
    fault: Option<ClientError>,
}

impl<S: Read + Write + Drop> PlayedLine<S> {
    /// The line, whose player is this client.
    pub fn new(line: StreamLine<S>, client: Client<S>) -> PlayedLine<S> {
        PlayedLine {
            line,
            client: Some(client),
            fault: None,
        }
    }

    /// Why the player gave up, if it did.
    pub fn fault(&self) -> Option<ClientError> {
        self.fault
    }

    /// Lets the player hear and say what it can now.
    fn play(&mut self)
        ensures { self.new.line ≡ self.old.line }
    {
        if let Some(client) = &mut self.client {
            if let Err(error) = client.turn() {
                self.client = None;
                self.fault = Some(error);
            }
        }
    }
}

impl<S: Read + Write + Drop> Line for PlayedLine<S> {
    ghost told = { λ _ _. Unit {0} };

    ghost failure_count = { λ line. line.line.failures };

    fn poll(&mut self, buffer: &mut [u8]) -> Polled {
        self.play();
        self.line.poll(buffer)
    }

    fn put(&mut self, bytes: &[u8]) -> Put {
        self.line.put(bytes)
    }

    fn failures(&self) -> u64 {
        self.line.failures()
    }
}
