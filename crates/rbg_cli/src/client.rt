//! A player of this process, at its end of a stream.

use crate::choice::SeatChooser;
use rbg_network::{ClientError, News, is_nothing_yet};
use rbg_player::{Heard, Player};
use rbg_wire::{Message, cut_at, read_message};
use std::alloc::{AllocError, Global};
use std::io::{Read, Write};
use std::str;

/// The most bytes that are read at once.
const PIECE: usize = 4_096;

/// A player that says one of at most 64 legal moves, at its end of a stream.
#[derive(Drop)]
pub struct Client<S: Read + Write + Drop> {
    stream: S,
    player: Player,
    choice: SeatChooser,
    /// What has come up to the end of the piece that ended the first message, which names the player.
    first: Vec<u8>,
    /// What the player has said and the stream has not taken yet.
    unsent: Vec<u8>,
}

impl<S: Read + Write + Drop> Client<S> {
    /// A player that has heard nothing yet.
    pub fn new(alloc: Global, stream: S, choice: SeatChooser) -> Client<S> {
        Client {
            stream,
            player: Player::new(alloc),
            choice,
            first: Vec::new(alloc),
            unsent: Vec::new(alloc),
        }
    }

    /// A player that has heard nothing yet, asks for a seat in this match of a hall, and says the first move.
    pub fn join(alloc: Global, stream: S, table: u64) -> Result<Client<S>, AllocError> {
        let mut unsent = Vec::new(alloc);
        let player = Player::join(alloc, table, &mut unsent)?;
        Ok(Client {
            stream,
            player,
            choice: SeatChooser::First,
            first: Vec::new(alloc),
            unsent,
        })
    }

    /// Whether the player has said something that the stream has not taken yet.
    pub fn has_unsent(&self) -> bool {
        !self.unsent.is_empty()
    }

    /// Hears what has come, in one read, and sends what the player says to it, as far as the stream takes it.
    pub fn turn(&mut self) -> Result<Heard, ClientError> {
        let heard = self.hear()?;
        if matches!(heard, Heard::Going) {
            self.send()?;
        }
        Ok(heard)
    }

    /// Hears what has come, in one read. Only where nothing has come it sends what the player says, as far as the stream
    /// takes it. So a player that hears a match again from its first message on says nothing to moves that were made
    /// already.
    pub fn patient_turn(&mut self) -> Result<Heard, ClientError> {
        let mut piece = [0u8; PIECE];
        match self.stream.read(&mut piece) {
            Ok(0) => Err(ClientError::Device),
            Ok(count) => self.hear_messages(&piece[..count]),
            Err(error) if is_nothing_yet(&error) => {
                self.send()?;
                Ok(Heard::Going)
            }
            Err(_) => Err(ClientError::Device),
        }
    }

    /// Hears a piece, message by message. What the player has said to a move is dropped when the next move comes.
    fn hear_messages(&mut self, piece: &[u8]) -> Result<Heard, ClientError> {
        for part in piece.split_inclusive(|byte| *byte == 0) {
            if part.starts_with(b"M") {
                self.unsent.clear();
            }
            let heard = self.hear_piece(part)?;
            if !matches!(heard, Heard::Going) {
                return Ok(heard);
            }
        }
        Ok(Heard::Going)
    }

    /// Which player this one is, once it has been told. A name of more bytes than a piece isn't known.
    pub fn seat(&self) -> Option<News<'_>> {
        let (message, _) = cut_at(0, self.first.as_slice())?;
        match read_message(message) {
            Ok(Message::Who { player, name }) => Some(News::Plays {
                player,
                name: str::from_utf8(name).ok()?,
            }),
            _ => None,
        }
    }

    /// Keeps what came, up to the first message's end.
    fn keep_first(&mut self, piece: &[u8]) -> Result<(), AllocError> {
        if self.first.len() < PIECE && cut_at(0, self.first.as_slice()).is_none() {
            self.first.extend_from_slice(piece)?;
        }
        Ok(())
    }

    /// Hears the next piece, if one has come. The stream may not end before the match has.
    fn hear(&mut self) -> Result<Heard, ClientError> {
        let mut piece = [0u8; PIECE];
        match self.stream.read(&mut piece) {
            Ok(0) => Err(ClientError::Device),
            Ok(count) => self.hear_piece(&piece[..count]),
            Err(error) if is_nothing_yet(&error) => Ok(Heard::Going),
            Err(_) => Err(ClientError::Device),
        }
    }

    fn hear_piece(&mut self, piece: &[u8]) -> Result<Heard, ClientError> {
        self.keep_first(piece)?;
        Ok(self.player.hear(piece, &mut self.choice, &mut self.unsent)?)
    }

    fn send(&mut self) -> Result<(), ClientError> {
        if self.unsent.is_empty() {
            return Ok(());
        }
        match self.stream.write(self.unsent.as_slice()) {
            Ok(count) => {
                self.unsent.drain(..count);
                Ok(())
            }
            Err(error) if is_nothing_yet(&error) => Ok(()),
            Err(_) => Err(ClientError::Device),
        }
    }
}
