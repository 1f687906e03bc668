//! The attached connections by number.
ghost use Rattle.std.specs.Prelude.{◌≡◌, ◌++◌, map, not, slice_get, length, IfOk, OnOk, OnErr};
ghost use Rattle.std.specs.Option.{option_copied, option_map};
ghost use Rattle.std.specs.FinMap.{empty, get, insert, remove, entries};
ghost use Rattle.std.specs.Ordering.{nat_cmp};
ghost use Rattle.std.specs.Map.Iter.{deref_pair};
ghost use Rattle.room_msg.specs.Laws.{IsServed};
ghost use Rattle.room_model.specs.Server.{without_actor, Outbound, Message};
ghost use Rattle.room_links.specs.Links.{as_map, holds_session, sends_of, to_whom};
ghost use Rattle.room_links.specs.Outs.{sending_of, written};

use crate::link::Link;
use crate::outs::{Outs, Sending, out_on};
use crate::sending::{Whom, goes_to};
use indexmap::IndexMap;
use room_json::{NoMemory, Text};
use room_msg::{ServerMsg, write_server};
use std::alloc::Global;
use std::marker::Model;

/// The attached connections by their numbers, in rising order. Contracts see a finite map.
#[derive(Drop)]
pub struct Links {
    map: IndexMap<u64, Link>,
}

impl Model for Links {
    ghost use Rattle.std.specs.Ordering.{nat_cmp};
    ghost use Rattle.std.specs.FinMap.{FinMap};
    ghost use Rattle.std.specs.Map.{keys_of};
    ghost use Rattle.std.specs.List.Sorted.{IsStrictlySortedBy};
    ghost use Rattle.room_model.specs.Server as model;
    ghost use Rattle.room_links.specs.Links.{as_map, links_code};

    ghost Value = { FinMap nat_cmp model.Link };

    ghost coded = { links_code };

    ghost view = { λ l. as_map l.map.entries };

    ghost invariant = { λ l. IsStrictlySortedBy nat_cmp (keys_of l.map.entries) };
}

/// The same on each of the connections that it goes to, in rising order.
fn send_each(
    alloc: Global,
    map: &IndexMap<u64, Link>,
    outs: &mut Outs,
    whom: Whom,
    sending: &Sending,
) -> Result<(), NoMemory>
    ensures { OnOk result (outs.new ≡ outs.old ++ sends_of whom sending.now map.now.entries) }
{
    for (conn, link) in map.iter() {
        if goes_to(whom, *conn, link) {
            outs.push(out_on(alloc, *conn, sending)?)?;
        }
    }
    Ok(())
}

/// Puts the same connections into an empty map.
#[tactic(auto, using(crate::proofs::Maps::from_place))]
fn copy_into(map: &IndexMap<u64, Link>, copy: &mut Links) -> Result<(), NoMemory>
    requires { copy.old ≡ empty }
    ensures { OnOk result (copy.new ≡ as_map map.now.entries) }
{
    let mut at = map.len();
    while at > 0 {
        at -= 1;
        if let Some((conn, link)) = map.get_index(at) {
            copy.set(*conn, link.same())?;
        }
    }
    Ok(())
}

#[tactic(auto, using(crate::proofs::Maps::views))]
impl Links {
    /// No connection.
    pub fn new(alloc: Global) -> Links
        ensures { result ≡ empty }
    {
        Links {
            map: IndexMap::new(alloc),
        }
    }

    /// How many there are.
    pub fn len(&self) -> u64
        ensures { result ≡ length (entries self.now) }
    {
        self.map.len() as u64
    }

    /// The connection of a number, if it is attached.
    pub fn get(&self, conn: u64) -> Option<&Link>
        ensures { option_copied result ≡ get self.now conn }
    {
        self.map.get(&conn)
    }

    /// The number and the connection at a place, in rising order of the numbers.
    pub fn at(&self, place: u64) -> Option<(&u64, &Link)>
        ensures { option_map deref_pair result ≡ slice_get (entries self.now) place }
    {
        self.map.get_index(place as usize)
    }

    /// Attaches a connection, or takes another one in its place. A refused call changes nothing.
    pub fn set(&mut self, conn: u64, link: Link) -> Result<(), NoMemory>
        ensures ok { OnOk result (self.new ≡ insert self.old conn link) }
        ensures err { OnErr result (self.new ≡ self.old) }
    {
        self.map.insert_sorted(conn, link)?;
        Ok(())
    }

    /// Detaches a connection, if it is there.
    pub fn remove(&mut self, conn: u64)
        ensures { self.new ≡ remove self.old conn }
    {
        drop(self.map.shift_remove(&conn));
    }

    /// Detaches each connection of an actor's session.
    pub fn remove_actor(&mut self, actor: u32)
        ensures { self.new ≡ without_actor self.old actor }
    {
        self.map.retain(
            |_conn: &u64, link: &mut Link| -> bool
                ensures { (result ≡ not (holds_session actor link.old)) × (link.new ≡ link.old) }
            { !link.is_of(actor) },
        );
    }

    /// The same connections.
    pub fn copy(&self, alloc: Global) -> Result<Links, NoMemory>
        ensures { IfOk result (λ l. l ≡ self.now) }
    {
        let mut copy = Links::new(alloc);
        copy_into(&self.map, &mut copy)?;
        Ok(copy)
    }

    /// What goes out is put behind the others, for each of the connections that it goes to, in rising order.
    pub fn send(
        &self,
        alloc: Global,
        outs: &mut Outs,
        whom: Whom,
        sending: &Sending,
    ) -> Result<(), NoMemory>
        ensures { (m : Outbound) → sending_of m ≡ sending.now
            → OnOk result (outs.new ≡ outs.old ++ map written (to_whom whom m self.now)) }
    {
        send_each(alloc, &self.map, outs, whom, sending)
    }

    /// The same of a message, whose text is written once.
    pub fn say(
        &self,
        alloc: Global,
        outs: &mut Outs,
        whom: Whom,
        msg: &ServerMsg,
    ) -> Result<(), NoMemory>
        requires { IsServed msg.now }
        ensures { OnOk result (outs.new ≡ outs.old ++ map written (to_whom whom (Message msg.now) self.now)) }
    {
        let sending = Sending::Says(write_server(alloc, msg)?);
        self.send(alloc, outs, whom, &sending)
    }
}
