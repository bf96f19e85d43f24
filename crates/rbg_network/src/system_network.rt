//! The network of the system. What fails is reported on standard error, and so is the news.

use crate::network::{Network, is_nothing_yet};
use crate::readiness::Readiness;
use crate::system_file::{guard_streams, lock, name_beside, open_locked, write_whole};
use crate::system_log::say_log_failure;
use crate::watch::{Mark, Watch};
use crate::{News, SystemArchive, SystemClock, SystemLog, SystemStream};
use mio::net::{TcpListener, TcpStream};
use std::alloc::AllocError;
use std::fs::{self, File};
use std::io::{self, ErrorKind};
use std::net::{self, Ipv4Addr, SocketAddr};
use std::rc::Rc;

/// A listener of the system, which doesn't wait.
#[derive(Drop)]
pub struct SystemListener {
    listener: TcpListener,
    mark: Mark,
}

/// The ports of 127.0.0.1.
#[derive(Drop)]
pub struct SystemNetwork<'a> {
    rt: &'a HostRuntime,
    /// What waits for the sockets, once there is one.
    watch: Option<Rc<Watch<'a>>>,
    /// The logs that this process holds beside those that it writes.
    held: Vec<File>,
    /// What stands where a stream of the process is closed.
    _guards: [Option<File>; 3],
}

impl<'a> SystemNetwork<'a> {
    /// The connections that this runtime can make.
    pub fn new(rt: &'a HostRuntime) -> SystemNetwork<'a> {
        SystemNetwork {
            rt,
            watch: None,
            held: Vec::new(rt.alloc()),
            _guards: guard_streams(rt),
        }
    }

    /// What waits for the sockets.
    fn watch(&mut self) -> io::Result<Rc<Watch<'a>>> {
        if let Some(watch) = &self.watch {
            return Ok(watch.clone()?);
        }
        let watch = Rc::new(self.rt.alloc(), Watch::new(self.rt)?)?;
        self.watch = Some(watch.clone()?);
        Ok(watch)
    }

    fn bind(&mut self, port: u16) -> io::Result<SystemListener> {
        let mut listener = TcpListener::bind(self.rt, port_here(port))?;
        let mark = self.watch()?.register(&mut listener, Readiness::new())?;
        Ok(SystemListener { listener, mark })
    }

    /// A connection that was made to a port of this machine.
    fn connect_to(&mut self, port: u16) -> io::Result<SystemStream> {
        let stream = net::TcpStream::connect(self.rt, port_here(port))?;
        stream.set_nonblocking(true)?;
        let watch = self.watch()?;
        SystemStream::new(&watch, TcpStream::from_std(stream), Readiness::new())
    }

    /// The next connection, if there is one.
    fn accept_next(&mut self, listener: &SystemListener) -> io::Result<SystemStream> {
        let readiness = listener.mark.get();
        if !readiness.may_give() {
            return Err(io::Error::from(ErrorKind::WouldBlock));
        }
        match listener.listener.accept() {
            Ok((stream, _)) => {
                let watch = self.watch()?;
                let accepted = SystemStream::new(&watch, stream, Readiness::of_player());
                if let Err(error) = &accepted {
                    let _said = eprintln!(self.rt; "can't watch a connection: {error}");
                }
                accepted
            }
            Err(error) if error.kind() == ErrorKind::WouldBlock => {
                listener.mark.set(readiness.gave_nothing());
                Err(error)
            }
            // (it is asked again)
            Err(error) if is_nothing_yet(&error) => {
                listener.mark.set(readiness.gave(true));
                Err(error)
            }
            Err(error) => {
                let _said = eprintln!(self.rt; "can't accept a connection: {error}");
                Err(error)
            }
        }
    }

    /// The log of this name in a file, if that could be opened, and no other process holds it.
    fn begin_log(
        &self,
        name: &str,
        path: &str,
        opened: io::Result<File>,
        sync: bool,
    ) -> io::Result<SystemLog<'a>> {
        match locked(self.rt, path, opened) {
            Ok(file) => {
                let name = String::from_str(self.rt.alloc(), name)?;
                Ok(SystemLog::new(self.rt, name, file, sync))
            }
            Err(error) => {
                say_log_failure(self.rt, "begin", path, &error);
                Err(error)
            }
        }
    }

    /// The result of what was done with a file. Where that failed, this is said.
    fn said<T>(&self, deed: &str, path: &str, done: io::Result<T>) -> io::Result<T> {
        if let Err(error) = &done {
            let _said = eprintln!(self.rt; "can't {deed} {path}: {error}");
        }
        done
    }
}

/// The file of a log, with its lock.
fn locked(rt: &HostRuntime, path: &str, opened: io::Result<File>) -> io::Result<File> {
    let file = opened?;
    lock(rt, path, &file)?;
    Ok(file)
}

/// The name of the game file beside a log.
fn game_beside(rt: &HostRuntime, log: &str) -> Result<String, AllocError> {
    format!(in rt.alloc(); "{log}.game")
}

/// A port of 127.0.0.1.
fn port_here(port: u16) -> SocketAddr {
    SocketAddr::from((Ipv4Addr::LOCALHOST, port))
}

/// Says that something fails, and why.
fn say_failure(rt: &HostRuntime, what: &str, port: u16, error: &io::Error) {
    let _said = eprintln!(rt; "can't {what} port {port}: {error}");
}

impl<'a> Network for SystemNetwork<'a> {
    type Stream = SystemStream;

    type Listener = SystemListener;

    type Clock = SystemClock<'a>;

    type Log = SystemLog<'a>;

    type Archive = SystemArchive<'a>;

    fn listen(&mut self, port: u16) -> io::Result<SystemListener> {
        let listener = self.bind(port);
        if let Err(error) = &listener {
            say_failure(self.rt, "listen on", port, error);
        }
        listener
    }

    fn port_of(&mut self, listener: &SystemListener) -> io::Result<u16> {
        Ok(listener.listener.local_addr()?.port())
    }

    fn accept(&mut self, listener: &mut SystemListener) -> io::Result<SystemStream> {
        self.accept_next(listener)
    }

    fn is_closed(&mut self, stream: &SystemStream) -> bool {
        stream.is_closed()
    }

    fn connect(&mut self, port: u16) -> io::Result<SystemStream> {
        let stream = self.connect_to(port);
        if let Err(error) = &stream {
            say_failure(self.rt, "connect to", port, error);
        }
        stream
    }

    fn start_clock(&mut self) -> io::Result<SystemClock<'a>> {
        Ok(SystemClock::new(self.watch()?))
    }

    fn create_log(&mut self, name: &str, sync: bool) -> io::Result<SystemLog<'a>> {
        let file = File::create_new(self.rt, name);
        self.begin_log(name, name, file, sync)
    }

    fn hold_log(&mut self, name: &str) -> io::Result<()> {
        match open_locked(self.rt, name) {
            Ok(file) => {
                self.held.push(file)?;
                Ok(())
            }
            Err(error) => {
                say_log_failure(self.rt, "take", name, &error);
                Err(error)
            }
        }
    }

    fn rewrite_log(&mut self, name: &str, sync: bool) -> io::Result<SystemLog<'a>> {
        let beside = name_beside(self.rt, name)?;
        let file = File::create(self.rt, beside.as_str());
        self.begin_log(name, beside.as_str(), file, sync)
    }

    fn replace_log(&mut self, name: &str) -> io::Result<()> {
        let beside = name_beside(self.rt, name)?;
        let renamed = fs::rename(self.rt, beside.as_str(), name);
        if let Err(error) = &renamed {
            say_log_failure(self.rt, "replace", name, error);
        }
        renamed
    }

    fn read_game(&mut self, log: &str) -> io::Result<Option<Vec<u8>>> {
        let path = game_beside(self.rt, log)?;
        match fs::read(self.rt, path.as_str()) {
            Ok(bytes) => Ok(Some(bytes)),
            Err(error) if error.kind() == ErrorKind::NotFound => Ok(None),
            Err(error) => self.said("read", path.as_str(), Err(error)),
        }
    }

    fn write_game(&mut self, log: &str, text: &[u8]) -> io::Result<()> {
        let path = game_beside(self.rt, log)?;
        let written = write_whole(self.rt, path.as_str(), text);
        self.said("write", path.as_str(), written)
    }

    fn open_archive(&mut self, directory: &str) -> io::Result<SystemArchive<'a>> {
        let directory = String::from_str(self.rt.alloc(), directory)?;
        Ok(SystemArchive::new(self.rt, directory))
    }

    fn tell(&mut self, news: &News<'_>) {
        let _told = eprintln!(self.rt; "{news}");
    }
}
