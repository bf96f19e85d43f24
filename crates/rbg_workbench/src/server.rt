//! The server: one wait for its listener and its connections, and a site that answers them.

use crate::answer::Reply;
use crate::connection::Connection;
use crate::request::Request;
use mio::net::{TcpListener, TcpStream};
use mio::{Events, Interest, Poll, Token};
use std::alloc::AllocError;
use std::io::{self, ErrorKind};
use std::net::{Ipv4Addr, SocketAddr};
use std::time::{Duration, Instant};

/// The most connections at once. A further one is closed.
const MAX_CONNECTIONS: usize = 64;

/// The most milliseconds that a wait takes, and those after which the site looks around.
const LOOK: u64 = 1_000;

/// What answers requests.
pub(crate) trait Site {
    /// Answers a request: appends the text of the answer, and returns what stands before it.
    fn answer(&mut self, request: &Request<'_>, text: &mut Vec<u8>) -> Result<Reply, AllocError>;

    /// Is called about once a second.
    fn look_around(&mut self);
}

/// A server on a port of 127.0.0.1.
#[derive(Drop)]
pub(crate) struct Server<'a> {
    rt: &'a HostRuntime,
    listener: TcpListener,
    poll: Poll,
    events: Events,
    port: u16,
    began: Instant,
    /// The milliseconds since it began, as they were read last.
    now: u64,
    connections: Vec<Connection<TcpStream>>,
}

impl<'a> Server<'a> {
    /// Listens on a port; where it is 0, on one that the system chooses.
    pub fn listen(rt: &'a HostRuntime, port: u16) -> io::Result<Server<'a>> {
        let alloc = rt.alloc();
        let address = SocketAddr::from((Ipv4Addr::LOCALHOST, port));
        let mut listener = TcpListener::bind(rt, address)?;
        let poll = Poll::new(rt)?;
        poll.registry()
            .register(&mut listener, Token(0), Interest::READABLE)?;
        let port = listener.local_addr()?.port();
        Ok(Server {
            rt,
            listener,
            poll,
            events: Events::with_capacity(alloc, MAX_CONNECTIONS)?,
            port,
            began: Instant::now(rt)?,
            now: 0,
            connections: Vec::new(alloc),
        })
    }

    /// The port.
    pub fn port(&self) -> u16 {
        self.port
    }

    /// Answers requests, until the system fails to wait.
    pub fn run<S: Site>(&mut self, site: &mut S) -> io::Result<()> {
        let mut looked = 0;
        for _ in 0..u64::MAX {
            self.wait()?;
            if self.now.saturating_sub(looked) >= LOOK {
                site.look_around();
                looked = self.now;
            }
            self.accept_all();
            self.advance(site);
        }
        Ok(())
    }

    /// Waits until a connection has something to give or takes something again, at most a second.
    fn wait(&mut self) -> io::Result<()> {
        let most = Some(Duration::from_millis(LOOK));
        if let Err(error) = self.poll.poll(&mut self.events, most) {
            if error.kind() != ErrorKind::Interrupted {
                return Err(error);
            }
        }
        let passed = self.began.elapsed(self.rt)?;
        self.now = u64::try_from(passed.as_millis()).unwrap_or(u64::MAX);
        Ok(())
    }

    /// Takes the connections that have come.
    fn accept_all(&mut self) {
        for _ in 0..MAX_CONNECTIONS {
            match self.listener.accept() {
                Ok((stream, _)) => self.take(stream),
                Err(_) => return,
            }
        }
    }

    /// Takes a connection, if there is room for it and it can be waited for.
    fn take(&mut self, stream: TcpStream) {
        if self.connections.len() >= MAX_CONNECTIONS {
            return;
        }
        let mut stream = stream;
        let token = Token(1);
        let interest = Interest::READABLE | Interest::WRITABLE;
        let registered = self.poll.registry().register(&mut stream, token, interest);
        if registered.is_ok() {
            let connection = Connection::new(self.rt.alloc(), stream, self.now);
            let _kept = self.connections.push(connection);
        }
    }

    /// Does what each connection can do now, and lets those go that are done.
    fn advance<S: Site>(&mut self, site: &mut S) {
        for connection in self.connections.iter_mut() {
            connection.advance(self.port, site, self.now);
        }
        self.connections.retain(|connection| !connection.is_done());
    }
}
