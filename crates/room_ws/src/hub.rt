//! The hub.
ghost use Rattle.std.specs.Prelude.{◌≡◌, ◌≤◌, ◌<◌, ◌+◌, ◌^◌, [], false, IfOk, IfSome, OnErr};
ghost use Rattle.room_edge.specs.Causes.{Rose};
ghost use Rattle.room_edge.specs.Memory.{next};
ghost use Rattle.room_hub.specs.Causes.{HasCause};
ghost use Rattle.room_ws.specs.Numbers.{IsNumbered, Numbers};

use crate::connection::{Connection, Given, Unsent, accepted, asked, closed, heard, sent};
use crate::key::next_key;
use crate::listen::Listen;
use room_edge::{Failed, Source};
use room_hub::{Event, Hub, HubFault, SendFault};
use room_json::{NoMemory, Text};
use std::alloc::Global;
use std::collections::BTreeMap;

/// Who opens connections.
#[derive(Drop)]
pub enum Side {
    /// Peers do; they come from the listener.
    Server,
    /// This side does, by `dial`; the handshake names this address.
    Client(Text),
}

/// WebSocket connections over the streams of a listener. Eight bytes of a source are the key of each.
///
/// On the server's side `next` first asks the listener once, and a stream that comes is given its handshake; the hub
/// waits for its peer meanwhile. Else, and on the client's side, it reads once from one connection, each in its turn. It
/// never answers `End`, and nothing is told of content.
#[derive(Drop)]
pub struct WsHub<L: Listen, S> {
    alloc: Global,
    listen: L,
    keys: S,
    side: Side,
    conns: BTreeMap<u64, Connection<L::Stream>>,
    turn: u64,
    last: u64,
    asked: u64,
    faults: u64,
}

impl<L: Listen, S: Source> WsHub<L, S> {
    /// A hub without connections.
    pub fn new(alloc: Global, listen: L, keys: S, side: Side) -> Result<WsHub<L, S>, NoMemory>
        ensures listen { IfOk result (λ h. h.listen ≡ listen) }
        ensures keys { IfOk result (λ h. h.keys ≡ keys) }
        ensures none { IfOk result (λ h. (h.last ≡ 0) × (h.asked ≡ 0) × (h.faults ≡ 0)) }
    {
        Ok(WsHub {
            alloc,
            listen,
            keys,
            side,
            conns: BTreeMap::new(alloc),
            turn: 0,
            last: 0,
            asked: 0,
            faults: 0,
        })
    }

    /// Counts a fault of its own.
    fn count(&mut self)
        ensures listen { self.new.listen ≡ self.old.listen }
        ensures keys { self.new.keys ≡ self.old.keys }
        ensures last { self.new.last ≡ self.old.last }
        ensures asked { self.new.asked ≡ self.old.asked }
        ensures later { self.old.faults ≤ self.new.faults }
        ensures rose { Rose self.old.faults self.new.faults }
    {
        self.faults = self.faults.saturating_add(1);
    }

    /// Eight bytes of the source; a source that ends before is a fault of the hub's own.
    fn draw_key(&mut self) -> Result<u64, HubFault>
        ensures listen { self.new.listen ≡ self.old.listen }
        ensures last { self.new.last ≡ self.old.last }
        ensures asked { self.new.asked ≡ self.old.asked }
        ensures keys { S.faults self.old.keys ≤ S.faults self.new.keys }
        ensures own { self.old.faults ≤ self.new.faults }
        ensures cause { HasCause HubFault.Failed (S.faults self.old.keys + self.old.faults)
            (S.faults self.new.keys + self.new.faults) result }
    {
        match next_key(&mut self.keys) {
            Ok(Some(key)) => Ok(key),
            Ok(None) => {
                self.count();
                Err(HubFault::Failed)
            }
            Err(Failed) => Err(HubFault::Failed),
        }
    }

    /// Keeps a connection under the next number.
    fn keep(&mut self, socket: Connection<L::Stream>) -> Result<u64, NoMemory>
        requires { self.old.last + 1 < 2 ^ 64 }
        ensures listen { self.new.listen ≡ self.old.listen }
        ensures keys { self.new.keys ≡ self.old.keys }
        ensures asked { self.new.asked ≡ self.old.asked }
        ensures own { self.new.faults ≡ self.old.faults }
        ensures numbered { IfOk result (λ conn. IsNumbered conn self.old.last self.new.last) }
        ensures err { OnErr result (self.new.last ≡ self.old.last) }
    {
        let conn = self.last + 1;
        self.conns.insert(conn, socket)?;
        self.last = conn;
        Ok(conn)
    }

    /// Gives a stream its handshake.
    fn welcome(&mut self, stream: L::Stream) -> Result<Event, HubFault>
        requires { self.old.last + 1 < 2 ^ 64 }
        ensures listen { self.new.listen ≡ self.old.listen }
        ensures asked { self.new.asked ≡ self.old.asked }
        ensures keys { S.faults self.old.keys ≤ S.faults self.new.keys }
        ensures own { self.old.faults ≤ self.new.faults }
        ensures numbers { IfOk result (Numbers self.old.last self.new.last) }
        ensures err { OnErr result (self.new.last ≡ self.old.last) }
        ensures cause { HasCause HubFault.Failed (S.faults self.old.keys + self.old.faults)
            (S.faults self.new.keys + self.new.faults) result }
    {
        let Some(socket) = accepted(self.alloc, stream)? else {
            return Ok(Event::Quiet);
        };
        let key = self.draw_key()?;
        let conn = self.keep(socket)?;
        Ok(Event::Opened(conn, key))
    }

    /// The connection that is read next.
    fn whose_turn(&self) -> Option<u64> {
        if let Some((conn, _)) = self.conns.range(self.turn..).next() {
            return Some(*conn);
        }
        match self.conns.first_key_value() {
            Some((conn, _)) => Some(*conn),
            None => None,
        }
    }

    /// Reads once from the connection whose turn it is.
    fn hear(&mut self) -> Result<Event, NoMemory>
        ensures listen { self.new.listen ≡ self.old.listen }
        ensures keys { self.new.keys ≡ self.old.keys }
        ensures asked { self.new.asked ≡ self.old.asked }
        ensures own { self.new.faults ≡ self.old.faults }
        ensures last { self.new.last ≡ self.old.last }
        ensures numbers { IfOk result (Numbers self.old.last self.new.last) }
    {
        let Some(conn) = self.whose_turn() else {
            return Ok(Event::Quiet);
        };
        self.turn = conn.wrapping_add(1);
        let Some(socket) = self.conns.get_mut(&conn) else {
            return Ok(Event::Quiet);
        };
        match heard(self.alloc, socket)? {
            Given::Text(text) => Ok(Event::Frame(conn, text)),
            Given::Gone => {
                self.conns.remove(&conn);
                Ok(Event::Gone(conn))
            }
            Given::Quiet => Ok(Event::Quiet),
        }
    }

    /// Counts what was lost.
    fn tried(&mut self, answer: Result<(), Unsent>) -> Result<(), SendFault>
        ensures listen { self.new.listen ≡ self.old.listen }
        ensures keys { self.new.keys ≡ self.old.keys }
        ensures last { self.new.last ≡ self.old.last }
        ensures asked { self.new.asked ≡ self.old.asked }
        ensures cause { HasCause SendFault.Lost self.old.faults self.new.faults result }
    {
        match answer {
            Ok(()) => Ok(()),
            Err(Unsent::Memory) => Err(SendFault::Memory),
            Err(Unsent::Lost) => {
                self.count();
                Err(SendFault::Lost)
            }
        }
    }

    /// The client's handshake on the next stream, or none.
    fn connect(&mut self) -> Result<Option<Connection<L::Stream>>, HubFault>
        ensures room { IfOk result (λ found. IfSome found (λ _. self.old.last + 1 < 2 ^ 64)) }
        ensures asked { self.new.asked ≡ self.old.asked }
        ensures last { self.new.last ≡ self.old.last }
        ensures cause { HasCause HubFault.Failed
            (L.faults self.old.listen + S.faults self.old.keys + self.old.faults)
            (L.faults self.new.listen + S.faults self.new.keys + self.new.faults) result }
    {
        if self.last == u64::MAX || matches!(self.side, Side::Server) {
            return Ok(None);
        }
        let Ok(found) = self.listen.accept() else {
            return Err(HubFault::Failed);
        };
        let Some(stream) = found else {
            return Ok(None);
        };
        let key = self.draw_key()?;
        match &self.side {
            Side::Server => Ok(None),
            Side::Client(address) => Ok(asked(self.alloc, stream, address, key)?),
        }
    }
}

impl<L: Listen, S: Source> Hub for WsHub<L, S> {
    ghost tells = { false };

    ghost happened = { λ _. [] };

    ghost asked = { λ h. h.asked };

    ghost faults = { λ h. L.faults h.listen + S.faults h.keys + h.faults };

    fn next(&mut self) -> Result<Event, HubFault>
        ensures asked { self.new.asked ≡ next self.old.asked }
        ensures cause { HasCause HubFault.Failed
            (L.faults self.old.listen + S.faults self.old.keys + self.old.faults)
            (L.faults self.new.listen + S.faults self.new.keys + self.new.faults) result }
        ensures numbers { IfOk result (Numbers self.old.last self.new.last) }
        ensures err { OnErr result (self.new.last ≡ self.old.last) }
    {
        self.asked = self.asked.saturating_add(1);
        if self.last == u64::MAX || !matches!(self.side, Side::Server) {
            return Ok(self.hear()?);
        }
        match self.listen.accept() {
            Ok(Some(stream)) => self.welcome(stream),
            Ok(None) => Ok(self.hear()?),
            Err(Failed) => Err(HubFault::Failed),
        }
    }

    fn send(&mut self, conn: u64, text: &Text) -> Result<(), SendFault>
        ensures asked { self.new.asked ≡ self.old.asked }
        ensures cause { HasCause SendFault.Lost
            (L.faults self.old.listen + S.faults self.old.keys + self.old.faults)
            (L.faults self.new.listen + S.faults self.new.keys + self.new.faults) result }
        ensures last { self.new.last ≡ self.old.last }
    {
        let answer = match self.conns.get_mut(&conn) {
            Some(socket) => sent(self.alloc, socket, text),
            None => Err(Unsent::Lost),
        };
        self.tried(answer)
    }

    fn close(&mut self, conn: u64, code: u16, text: &Text) -> Result<(), SendFault>
        ensures asked { self.new.asked ≡ self.old.asked }
        ensures cause { HasCause SendFault.Lost
            (L.faults self.old.listen + S.faults self.old.keys + self.old.faults)
            (L.faults self.new.listen + S.faults self.new.keys + self.new.faults) result }
        ensures last { self.new.last ≡ self.old.last }
    {
        let answer = match self.conns.get_mut(&conn) {
            Some(socket) => closed(self.alloc, socket, code, text.as_str()),
            None => Err(Unsent::Lost),
        };
        if !matches!(answer, Err(Unsent::Memory)) {
            self.conns.remove(&conn);
        }
        self.tried(answer)
    }

    fn dial(&mut self) -> Result<u64, HubFault>
        ensures asked { self.new.asked ≡ self.old.asked }
        ensures cause { HasCause HubFault.Failed
            (L.faults self.old.listen + S.faults self.old.keys + self.old.faults)
            (L.faults self.new.listen + S.faults self.new.keys + self.new.faults) result }
        ensures numbered { IfOk result (λ conn. IsNumbered conn self.old.last self.new.last) }
        ensures err { OnErr result (self.new.last ≡ self.old.last) }
    {
        match self.connect()? {
            Some(socket) => Ok(self.keep(socket)?),
            None => {
                self.count();
                Err(HubFault::Failed)
            }
        }
    }
}
