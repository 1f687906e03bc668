//! What cases act on: a disk, a server over it, and the arrivals of a turn.
ghost use Rattle.std.specs.Prelude.{◌≤◌, IfSome};
ghost use Rattle.room_log.specs.Follows.{most};

use crate::broken::Broken;
use crate::texts::{all_shown, log as add};
use room_case_disk::CaseDisk;
use room_json::Text;
use room_server::{Arrivals, Came, Outs, Server, ServerFault};
use room_store::{Limits, StoreFault};
use room_tree::{PlainTree, Tree};
use std::alloc::Global;

/// A disk, the server that was recovered from it last, the arrivals of a turn that has begun, all that went out, and
/// what went out before a mark.
#[derive(Drop)]
pub(crate) struct Scene {
    pub(crate) disk: CaseDisk,
    pub(crate) server: Option<Server<PlainTree>>,
    turn: Option<Arrivals>,
    log: String,
    marked: String,
}

impl Scene {
    /// An empty disk, and no server.
    pub(crate) fn new(alloc: Global) -> Scene {
        Scene {
            disk: CaseDisk::new(alloc),
            server: None,
            turn: None,
            log: String::new(alloc),
            marked: String::new(alloc),
        }
    }

    /// An empty disk takes the place of the other.
    pub(crate) fn renew(&mut self, alloc: Global) {
        self.disk = CaseDisk::new(alloc);
        self.server = None;
        self.turn = None;
    }

    /// Recovers a server.
    pub(crate) fn recover(&mut self, alloc: Global, limits: Limits) -> Result<String, Broken>
        requires { limits.updates ≤ most }
    {
        let room = Text::from_str(alloc, "room")?;
        let empty = PlainTree::empty(alloc)?;
        self.turn = None;
        match Server::recover(alloc, &mut self.disk, 0, &room, empty, limits) {
            Ok(server) => {
                self.server = Some(server);
                Ok(format!(in alloc; "ok")?)
            },
            Err(StoreFault::Memory) => Err(Broken::Memory),
            Err(fault) => {
                self.server = None;
                Ok(format!(in alloc; "refused: {fault}")?)
            },
        }
    }

    /// The server.
    pub(crate) fn server(&mut self) -> Result<&mut Server<PlainTree>, Broken> {
        match &mut self.server {
            Some(server) => Ok(server),
            None => Err(Broken::Server),
        }
    }

    /// From here on arrivals wait for the end of a turn.
    pub(crate) fn begin(&mut self, alloc: Global) {
        self.turn = Some(Arrivals::new(alloc));
    }

    /// An arrival: of a turn that has begun, or by itself.
    pub(crate) fn take(&mut self, alloc: Global, came: Came) -> Result<String, Broken> {
        if let Some(arrivals) = &mut self.turn {
            arrivals.push(came)?;
            return Ok(format!(in alloc; "waits")?);
        }
        match &mut self.server {
            Some(server) => act(alloc, server, &mut self.disk, &mut self.log, &came),
            None => Err(Broken::Server),
        }
    }

    /// The end of a turn.
    pub(crate) fn end(&mut self, alloc: Global) -> Result<String, Broken> {
        let (Some(server), Some(arrivals)) = (&mut self.server, self.turn.take()) else {
            return Err(Broken::Server);
        };
        let answer = server.turn(alloc, &mut self.disk, &arrivals);
        told(alloc, &mut self.log, answer)
    }

    /// Marks what went out, so that what goes out from here on can be compared with it.
    pub(crate) fn mark(&mut self, alloc: Global) {
        self.marked = std::mem::replace(&mut self.log, String::new(alloc));
    }

    /// Whether as much went out as before the mark, byte for byte.
    pub(crate) fn compare(&mut self, alloc: Global) -> Result<String, Broken> {
        let length = self.log.len();
        if self.log.as_str() == self.marked.as_str() {
            return Ok(format!(in alloc; "same, {length} bytes")?);
        }
        Ok(format!(in alloc; "different")?)
    }
}

/// What comes of an arrival by itself.
fn act(
    alloc: Global,
    server: &mut Server<PlainTree>,
    disk: &mut CaseDisk,
    log: &mut String,
    came: &Came,
) -> Result<String, Broken> {
    match came {
        Came::Opened(conn, key) => {
            server.opened(*conn, *key)?;
            Ok(format!(in alloc; "ok")?)
        },
        Came::Frame(conn, text) => {
            let answer = server.frame(alloc, disk, *conn, text);
            told(alloc, log, answer)
        },
        Came::Gone(conn) => {
            let outs = server.gone(alloc, *conn)?;
            given(alloc, log, &outs)
        },
    }
}

/// What went out.
fn given(alloc: Global, log: &mut String, outs: &Outs) -> Result<String, Broken> {
    add(alloc, log, outs)?;
    all_shown(alloc, outs)
}

/// What went out, or why nothing did.
fn told(
    alloc: Global,
    log: &mut String,
    answer: Result<Outs, ServerFault>,
) -> Result<String, Broken> {
    match answer {
        Ok(outs) => given(alloc, log, &outs),
        Err(ServerFault::Memory) => Err(Broken::Memory),
        Err(fault) => Ok(format!(in alloc; "refused: {fault}")?),
    }
}
