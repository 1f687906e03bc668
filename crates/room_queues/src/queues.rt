//! The connections of a world by number.
ghost use Rattle.std.specs.Prelude.{◌≡◌, map, option_map, true, IfSome, OnOk};
ghost use Rattle.std.specs.Option.{option_copied};
ghost use Rattle.std.specs.FinMap.{empty, entries, get, insert};
ghost use Rattle.room_msg.specs.Frame.{client_frame_in};
ghost use Rattle.room_model.specs.World.{new_conn, give, deliver, cut_conn, gone_conn, least, has_inbound};
ghost use Rattle.room_model.specs.World.{has_outbound};
ghost use Rattle.room_queues.specs.Calls.{as_map, sent, next_inbound, received, next_outbound, taken, all_emptied};
ghost use Rattle.room_queues.specs.Seen.{outbound_in, outs_in, IsMail, AreMail};

use crate::conn::Conn;
use crate::mail::{Mail, Outbound};
use room_disk::Disk;
use room_json::{Names, NoMemory, Seq, Text};
use std::alloc::Global;
use std::collections::BTreeMap;
use std::marker::Model;

/// The connections that were opened, by number. Contracts see a finite map of them.
#[derive(Drop)]
pub struct Queues<D: Disk> {
    conns: BTreeMap<u64, Conn<D>>,
}

impl<D: Disk> Model for Queues<D> {
    ghost use Rattle.std.specs.Ordering.{nat_cmp};
    ghost use Rattle.std.specs.FinMap.{FinMap};
    ghost use Rattle.room_model.specs.World.{Conn as Queued};
    ghost use Rattle.room_queues.specs.Calls.{as_map};
    ghost use Rattle.room_queues.specs.Codes.{conns_code};

    ghost Value = { FinMap nat_cmp Queued };

    ghost coded = { conns_code };

    ghost view = { λ q. as_map q.conns.entries };
}

#[tactic(auto, using(crate::proofs::Maps::entries_are))]
fn least_inbound<D: Disk>(conns: &BTreeMap<u64, Conn<D>>) -> Option<u64>
    ensures { result ≡ least has_inbound (entries (as_map conns.now.entries)) }
{
    for (k, conn) in conns.iter() {
        if conn.has_inbound() {
            return Some(*k);
        }
    }
    None
}

#[tactic(auto, using(crate::proofs::Maps::entries_are))]
fn least_outbound<D: Disk>(conns: &BTreeMap<u64, Conn<D>>) -> Option<u64>
    ensures { result ≡ least has_outbound (entries (as_map conns.now.entries)) }
{
    for (k, conn) in conns.iter() {
        if conn.has_outbound() {
            return Some(*k);
        }
    }
    None
}

fn empty_all<D: Disk>(conns: &mut BTreeMap<u64, Conn<D>>)
    ensures { as_map conns.new.entries ≡ all_emptied (as_map conns.old.entries) }
{
    conns.retain(|_, conn| {
        conn.empty();
        true
    });
}

fn deliver_all<D: Disk>(queues: &mut Queues<D>, sends: Vec<(u64, Mail)>) -> Result<(), NoMemory>
    requires { D.tells ≡ true → D.stops ≡ true → AreMail sends.items }
    ensures { OnOk result (queues.new ≡ deliver queues.old (outs_in sends.items)) }
{
    for (k, mail) in sends {
        queues.give(k, Outbound::new(mail))?;
    }
    Ok(())
}

#[tactic(auto, using(crate::proofs::Maps::views))]
impl<D: Disk> Queues<D> {
    /// No connections.
    pub fn new(alloc: Global) -> Queues<D>
        ensures { result ≡ empty }
    {
        Queues {
            conns: BTreeMap::new(alloc),
        }
    }

    /// A new connection of that number, of a client or of none. In place of one that is there.
    pub fn open(&mut self, alloc: Global, k: u64, owner: Option<u64>) -> Result<(), NoMemory>
        ensures { OnOk result (self.new ≡ insert self.old k (new_conn owner)) }
    {
        self.conns.insert(k, Conn::new(alloc, owner))?;
        Ok(())
    }

    /// The connection of that number.
    pub fn conn(&self, k: u64) -> Option<&Conn<D>>
        ensures { option_copied result ≡ get self.now k }
    {
        self.conns.get(&k)
    }

    /// Texts go up behind those that wait. Nothing happens where there is no such connection. Where memory runs out a
    /// part of them may wait.
    pub fn send(&mut self, k: u64, texts: Names) -> Result<(), NoMemory>
        ensures { OnOk result (self.new ≡ sent self.old k (map client_frame_in texts) (get self.old k)) }
    {
        let Some(conn) = self.conns.get_mut(&k) else {
            return Ok(());
        };
        conn.send(texts)
    }

    /// What the server sends goes down behind what waits, where the connection listens; a close empties what goes up.
    pub fn give(&mut self, k: u64, sent: Outbound<D>) -> Result<(), NoMemory>
        ensures { OnOk result (self.new ≡ give self.old k sent (get self.old k)) }
    {
        let Some(conn) = self.conns.get_mut(&k) else {
            return Ok(());
        };
        conn.give(sent)
    }

    /// All that the server sends at once, in its order. Where memory runs out a part of it may wait.
    pub fn deliver(&mut self, sends: Seq<(u64, Mail)>) -> Result<(), NoMemory>
        requires { D.tells ≡ true → D.stops ≡ true → AreMail sends }
        ensures { OnOk result (self.new ≡ deliver self.old (outs_in sends)) }
    {
        deliver_all(self, sends.into_vec())
    }

    /// The server receives the next text of a connection.
    pub fn receive(&mut self, k: u64) -> Option<Text>
        ensures first { option_map client_frame_in result ≡ next_inbound (get self.old k) }
        ensures rest { self.new ≡ received self.old k (get self.old k) }
    {
        let Some(conn) = self.conns.get_mut(&k) else {
            return None;
        };
        conn.receive()
    }

    /// The client or the link of a connection receives what is next.
    pub fn take(&mut self, k: u64) -> Option<Mail>
        ensures first { option_map outbound_in result ≡ next_outbound (get self.old k) }
        ensures rest { self.new ≡ taken self.old k (get self.old k) }
        ensures mail { D.tells ≡ true → D.stops ≡ true → IfSome result IsMail }
    {
        let Some(conn) = self.conns.get_mut(&k) else {
            return None;
        };
        conn.take()
    }

    /// The client notices a loss: what goes down is lost, and nothing more enters.
    pub fn cut(&mut self, k: u64)
        ensures { self.new ≡ cut_conn self.old k (get self.old k) }
    {
        if let Some(conn) = self.conns.get_mut(&k) {
            conn.cut();
        }
    }

    /// The server notices that a connection is gone: what goes up is lost.
    pub fn gone(&mut self, k: u64)
        ensures { self.new ≡ gone_conn self.old k (get self.old k) }
    {
        if let Some(conn) = self.conns.get_mut(&k) {
            conn.gone();
        }
    }

    /// The server stops: what waits is lost, on each connection.
    pub fn empty(&mut self)
        ensures { self.new ≡ all_emptied self.old }
    {
        empty_all(&mut self.conns);
    }

    /// The least connection of which the server has something to receive. Goes over the connections.
    pub fn least_inbound(&self) -> Option<u64>
        ensures { result ≡ least has_inbound (entries self.now) }
    {
        least_inbound(&self.conns)
    }

    /// The least connection with something for its client or link. Goes over the connections.
    pub fn least_outbound(&self) -> Option<u64>
        ensures { result ≡ least has_outbound (entries self.now) }
    {
        least_outbound(&self.conns)
    }
}
