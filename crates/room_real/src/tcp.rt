//! TCP: streams that peers open, and streams that are opened to a peer.
ghost use Rattle.std.specs.Prelude.{◌≡◌, ◌≤◌, ◌<◌, ◌+◌, ◌-◌, ◌^◌, None, length, min, IfOk, OnOk, OnErr};
ghost use Rattle.std.specs.Io.{ReadsAtMost, WritesAtMost};
ghost use Rattle.room_edge.specs.Causes.{HasCause};
ghost use Rattle.room_ws.specs.Waiting.{Takes};

use crate::again;
use room_edge::Failed;
use room_json::Text;
use room_ws::Listen;
use std::alloc::Global;
use std::cell::Cell;
use std::io::{ErrorKind, Read, Write};
use std::net::{Net, TcpListener, TcpStream};
use std::rc::Rc;
use std::rt::Clock;
use std::time::Duration;
use std::{io, thread};

/// How long a listener rests where nothing is ready, and a dialled stream waits for bytes, in milliseconds.
const REST: u64 = 1;

/// A TCP stream. Until it has handed on a first empty line (CR LF CR LF) a read waits, and the read that hands on its
/// end hands on nothing behind it. From then on a read answers 'would block' where nothing is ready; one of a dialled
/// stream waits a millisecond first. A write waits.
#[derive(Drop)]
pub struct TcpWire {
    stream: TcpStream,
    // how many bytes of the empty line were handed on
    seen: u8,
    // reads in a row, over all streams of a listener, that found nothing
    idle: Option<Rc<Cell<usize>>>,
}

impl TcpWire {
    fn new(stream: TcpStream, idle: Option<Rc<Cell<usize>>>) -> TcpWire {
        // without it small frames wait for one another; a stream that refuses it works all the same
        let _ = stream.set_nodelay(true);
        TcpWire {
            stream,
            seen: 0,
            idle,
        }
    }

    fn read_head(&mut self, into: &mut [u8]) -> io::Result<usize>
        ensures { ReadsAtMost result into.new }
    {
        let ready = again::peek(&self.stream, into)?;
        let wanted = head_end(self.seen, &into[..ready]);
        let count = again::read(&mut self.stream, &mut into[..wanted])?;
        self.seen = seen_after(self.seen, &into[..count]);
        if self.seen == 4 {
            self.end_head()?;
        }
        Ok(count)
    }

    fn end_head(&self) -> io::Result<()> {
        match &self.idle {
            Some(_) => self.stream.set_nonblocking(true),
            None => self
                .stream
                .set_read_timeout(Some(Duration::from_millis(REST))),
        }
    }

    /// Notes whether a read found something.
    fn note(&self, found: bool) {
        if let Some(idle) = &self.idle {
            idle.set(if found {
                0
            } else {
                idle.get().saturating_add(1)
            });
        }
    }

    fn wait_and_write(&mut self, piece: &[u8]) -> io::Result<usize>
        ensures { WritesAtMost result piece.now }
    {
        self.stream.set_nonblocking(false)?;
        let answer = again::write(&mut self.stream, piece);
        self.stream.set_nonblocking(true)?;
        answer
    }
}

impl Read for TcpWire {
    fn read(&mut self, into: &mut [u8]) -> io::Result<usize> {
        if self.seen < 4 {
            return self.read_head(into);
        }
        let answer = again::read(&mut self.stream, into);
        self.note(answer.is_ok());
        answer
    }
}

impl Write for TcpWire {
    fn write(&mut self, piece: &[u8]) -> io::Result<usize> {
        match again::write(&mut self.stream, piece) {
            Err(error) if error.kind() == ErrorKind::WouldBlock => self.wait_and_write(piece),
            answer => answer,
        }
    }

    fn flush(&mut self) -> io::Result<()> {
        Ok(())
    }
}

/// How many bytes of the empty line are seen with one byte more.
fn seen_with(seen: u8, byte: u8) -> u8 {
    match (seen, byte) {
        (0, b'\r') => 1,
        (1, b'\n') => 2,
        (2, b'\r') => 3,
        (3, b'\n') => 4,
        (_, b'\r') => 1,
        _ => 0,
    }
}

/// How many of these bytes there are up to the end of the first empty line.
fn head_end(seen: u8, bytes: &[u8]) -> usize
    ensures { result ≤ length bytes.now }
{
    let mut seen = seen;
    for at in 0..bytes.len() {
        seen = seen_with(seen, bytes[at]);
        if seen == 4 {
            return at + 1;
        }
    }
    bytes.len()
}

fn seen_after(seen: u8, bytes: &[u8]) -> u8 {
    let mut seen = seen;
    for byte in bytes {
        seen = seen_with(seen, *byte);
    }
    seen
}

/// The peers of an address that this process listens on, from the first call on.
///
/// Where as many reads in a row as there are streams found nothing, it rests for a millisecond before it looks for the
/// next stream.
#[derive(Drop)]
pub struct TcpPeers<R> {
    alloc: Global,
    system: R,
    address: Text,
    listener: Option<(TcpListener, Rc<Cell<usize>>)>,
    faults: u64,
}

impl<R: Net<Listener = TcpListener, Stream = TcpStream> + Clock> TcpPeers<R> {
    /// The peers of an address, a host and a port. Nothing is opened yet.
    pub fn new(alloc: Global, system: R, address: Text) -> TcpPeers<R>
        ensures { result.faults ≡ 0 }
    {
        TcpPeers {
            alloc,
            system,
            address,
            listener: None,
            faults: 0,
        }
    }

    /// The port that this process listens on.
    pub fn port(&mut self) -> Result<u16, Failed>
        ensures { HasCause self.old.faults self.new.faults result }
    {
        let found = self.find_port();
        self.count(found)
    }

    fn find_port(&mut self) -> io::Result<u16>
        ensures { self.new.faults ≡ self.old.faults }
    {
        self.open()?;
        match &self.listener {
            Some((listener, _)) => Ok(listener.local_addr()?.port()),
            None => Ok(0),
        }
    }

    fn open(&mut self) -> io::Result<()>
        ensures { self.new.faults ≡ self.old.faults }
    {
        if self.listener.is_some() {
            return Ok(());
        }
        let listener = TcpListener::bind(&self.system, self.address.as_str())?;
        listener.set_nonblocking(true)?;
        let idle = Rc::new(self.alloc, Cell::new(0))?;
        self.listener = Some((listener, idle));
        Ok(())
    }

    fn take(&mut self) -> io::Result<Option<TcpWire>>
        ensures { self.new.faults ≡ self.old.faults }
    {
        self.open()?;
        let Some((listener, idle)) = &self.listener else {
            return Ok(None);
        };
        if idle.get().saturating_add(1) >= Rc::strong_count(idle) {
            thread::sleep(&self.system, Duration::from_millis(REST));
            idle.set(0);
        }
        match listener.accept() {
            Ok((stream, _)) => Ok(Some(TcpWire::new(stream, Some(idle.clone()?)))),
            Err(error) if is_nobody(&error) => Ok(None),
            Err(error) => Err(error),
        }
    }

    fn count<T>(&mut self, answer: io::Result<T>) -> Result<T, Failed>
        ensures ok { IfOk result (λ x. answer ≡ Ok x) }
        ensures cause { HasCause self.old.faults self.new.faults result }
    {
        match answer {
            Ok(value) => Ok(value),
            Err(_) => {
                self.faults = self.faults.saturating_add(1);
                Err(Failed)
            }
        }
    }
}

/// Whether no stream waits, or one that did is gone again.
fn is_nobody(error: &io::Error) -> bool {
    matches!(
        error.kind(),
        ErrorKind::WouldBlock | ErrorKind::Interrupted | ErrorKind::ConnectionAborted
    )
}

impl<R: Net<Listener = TcpListener, Stream = TcpStream> + Clock> Listen for TcpPeers<R> {
    type Stream = TcpWire;

    ghost waiting = { λ _. None };

    ghost faults = { λ l. l.faults };

    fn accept(&mut self) -> Result<Option<TcpWire>, Failed> {
        let answer = self.take();
        self.count(answer)
    }
}

/// Streams to a peer: each call opens one.
#[derive(Drop)]
pub struct TcpDials<R> {
    system: R,
    address: Text,
    faults: u64,
}

impl<R: Net<Listener = TcpListener, Stream = TcpStream>> TcpDials<R> {
    /// Streams to the peer at an address, a host and a port. Nothing is opened yet.
    pub fn new(system: R, address: Text) -> TcpDials<R>
        ensures { result.faults ≡ 0 }
    {
        TcpDials {
            system,
            address,
            faults: 0,
        }
    }
}

impl<R: Net<Listener = TcpListener, Stream = TcpStream>> Listen for TcpDials<R> {
    type Stream = TcpWire;

    ghost waiting = { λ _. None };

    ghost faults = { λ l. l.faults };

    fn accept(&mut self) -> Result<Option<TcpWire>, Failed> {
        match TcpStream::connect(&self.system, self.address.as_str()) {
            Ok(stream) => Ok(Some(TcpWire::new(stream, None))),
            Err(_) => {
                self.faults = self.faults.saturating_add(1);
                Err(Failed)
            }
        }
    }
}
