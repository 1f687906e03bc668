//! A connection and its two queues.
ghost use Rattle.std.specs.Prelude.{◌≡◌, ◌++◌, [], map, option_map, true, false, IfSome, OnOk};
ghost use Rattle.room_msg.specs.Frame.{client_frame_in};
ghost use Rattle.room_model.specs.World.{new_conn, with_outbound, has_inbound, has_outbound};
ghost use Rattle.room_queues.specs.Calls.{first, rest, emptied};
ghost use Rattle.room_queues.specs.Seen.{outbound_in, IsMail};

use crate::mail::{Inbound, Mail, Outbound};
use room_disk::Disk;
use room_json::{Names, NoMemory, Text};
use std::alloc::Global;
use std::collections::VecDeque;
use std::marker::Model;

/// A connection: the client that dialled it, if one did, what waits in both directions, and whether what the server
/// sends still enters.
#[derive(Drop)]
pub struct Conn<D: Disk> {
    owner: Option<u64>,
    inbound: VecDeque<Inbound>,
    outbound: VecDeque<Outbound<D>>,
    listens: bool,
}

impl<D: Disk> Model for Conn<D> {
    ghost use Rattle.room_model.specs.World.{Conn as Queued};
    ghost use Rattle.room_queues.specs.Codes.{conn_code};

    ghost Value = { Queued };

    ghost coded = { conn_code };

    ghost view = { λ c. record {
      owner = c.owner;
      inbound = c.inbound.items;
      outbound = c.outbound.items;
      listens = c.listens;
    } };
}

impl<D: Disk> Conn<D> {
    /// A new connection, of a client or of none.
    pub(crate) fn new(alloc: Global, owner: Option<u64>) -> Conn<D>
        ensures { result ≡ new_conn owner }
    {
        Conn {
            owner,
            inbound: VecDeque::new(alloc),
            outbound: VecDeque::new(alloc),
            listens: true,
        }
    }

    /// The client that dialled it; a link has none.
    pub fn owner(&self) -> Option<u64>
        ensures { result ≡ self.now.owner }
    {
        self.owner
    }

    /// Whether the server has something to receive.
    pub fn has_inbound(&self) -> bool
        ensures { result ≡ has_inbound self.now }
    {
        !self.inbound.is_empty()
    }

    /// Whether the client or the link has something to receive.
    pub fn has_outbound(&self) -> bool
        ensures { result ≡ has_outbound self.now }
    {
        !self.outbound.is_empty()
    }

    /// Texts go up behind those that wait.
    pub(crate) fn send(&mut self, texts: Names) -> Result<(), NoMemory>
        ensures { OnOk result (self.new
            ≡ record self.old { inbound = self.old.inbound ++ map client_frame_in texts }) }
    {
        push_all(&mut self.inbound, texts)
    }

    /// What the server sends goes down behind what waits; a close empties what goes up.
    pub(crate) fn give(&mut self, sent: Outbound<D>) -> Result<(), NoMemory>
        ensures { OnOk result (self.new ≡ with_outbound self.old sent) }
    {
        let closes = sent.is_close();
        if self.listens {
            self.outbound.push_back(sent)?;
        }
        if closes {
            self.inbound.clear();
        }
        Ok(())
    }

    /// The server receives the next text.
    pub(crate) fn receive(&mut self) -> Option<Text>
        ensures first { option_map client_frame_in result ≡ first self.old.inbound }
        ensures rest { self.new ≡ record self.old { inbound = rest self.old.inbound } }
    {
        match self.inbound.pop_front() {
            Some(next) => Some(next.into_text()),
            None => None,
        }
    }

    /// The client or the link receives what is next.
    pub(crate) fn take(&mut self) -> Option<Mail>
        ensures first { option_map outbound_in result ≡ first self.old.outbound }
        ensures rest { self.new ≡ record self.old { outbound = rest self.old.outbound } }
        ensures mail { D.tells ≡ true → D.stops ≡ true → IfSome result IsMail }
    {
        match self.outbound.pop_front() {
            Some(next) => Some(next.into_mail()),
            None => None,
        }
    }

    /// What goes down is lost, and nothing more enters.
    pub(crate) fn cut(&mut self)
        ensures { self.new ≡ record self.old { outbound = []; listens = false } }
    {
        self.outbound.clear();
        self.listens = false;
    }

    /// What goes up is lost.
    pub(crate) fn gone(&mut self)
        ensures { self.new ≡ record self.old { inbound = [] } }
    {
        self.inbound.clear();
    }

    /// What waits is lost in both directions.
    pub(crate) fn empty(&mut self)
        ensures { self.new ≡ emptied self.old }
    {
        self.inbound.clear();
        self.outbound.clear();
    }
}

/// Puts texts behind those that wait.
fn push_all(queue: &mut VecDeque<Inbound>, texts: Names) -> Result<(), NoMemory>
    ensures { OnOk result (queue.new.items ≡ queue.old.items ++ map client_frame_in texts) }
{
    for text in texts.into_vec() {
        queue.push_back(Inbound::new(text))?;
    }
    Ok(())
}
