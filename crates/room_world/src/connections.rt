//! Lines of connections that leave the disk as it is.
ghost use Rattle.std.specs.Prelude.{◌≡◌, ◌≤◌, ◌+◌, ◌<◌, ◌^◌, ◌∷◌, [], Option, true, IfOk};
ghost use Rattle.std.specs.FinMap.{get};
ghost use Rattle.room_replay.specs.Files.{Files};
ghost use Rattle.room_model.specs.Lines.{OfConnection, Down, Gone, Raw, Link};
ghost use Rattle.room_model.specs.World.{World as Model, Fuse, client_takes, link_takes, owner_of, saying, slot_in};
ghost use Rattle.room_model.specs.World.{step};
ghost use Rattle.room_moves.specs.Reading.{AreFramesRead, DownReads, GoneReads, replies_to};
ghost use Rattle.room_queues.specs.Seen.{IsMail, outbound_in};
ghost use Rattle.room_host.specs.Rests.{SameFiles};
ghost use Rattle.room_host.specs.Seen.{host_in};
ghost use Rattle.room_world.specs.Did.{Did, Does};
ghost use Rattle.room_world.specs.Seen.{world_in};
ghost use Rattle.room_world.specs.Sending.{is_link};

use crate::clients::only;
use crate::sending::{send_down, send_up};
use crate::world::World;
use room_fuse::Stopping;
use room_json::{Copied, Names, NoMemory, Seq, Text};
use room_queues::Mail;
use room_report::{closed, got};
use room_slots::Taken;
use room_tree::Tree;
use std::alloc::Global;

/// A link writes what it gets.
fn link_line(alloc: Global, k: u64, mail: &Mail) -> Result<Text, NoMemory>
    ensures { IsMail mail.now → IfOk result (λ t.
        (w : Model) → link_takes w k (outbound_in mail.now) ≡ saying w (t ∷ [])) }
{
    match mail {
        Mail::Frame(text) => got(alloc, k, text),
        Mail::Close(code, text) => closed(alloc, k, *code, text),
    }
}

impl<T: Tree, D: Stopping> World<T, D> {
    /// A connection without a client.
    pub(crate) fn link(&mut self, alloc: Global, number: u64) -> Result<Names, NoMemory>
        requires room { self.old.opened + 1 < 2 ^ 64 }
        ensures does { IfOk result (Does self.old self.new number Link) }
        ensures opened { self.new.opened ≤ self.old.opened + 1 }
        ensures files { SameFiles self.old.hosting.server self.new.hosting.server }
    {
        self.open(alloc, None)?;
        Ok(Seq::new(alloc))
    }

    /// Whether there is such a connection, and no client dialled it.
    fn is_link(&self, k: u64) -> bool
        ensures { result ≡ is_link (get self.now.conns k) }
    {
        match self.queues.conn(k) {
            Some(conn) => conn.owner().is_none(),
            None => false,
        }
    }

    /// A text goes up on a link; on a client's connection nothing happens.
    pub(crate) fn raw(
        &mut self,
        alloc: Global,
        number: u64,
        k: u64,
        text: &Text,
    ) -> Result<Names, NoMemory>
        ensures does { IfOk result (Does self.old self.new number (OfConnection k (Raw text.now))) }
        ensures opened { self.new.opened ≡ self.old.opened }
        ensures hosting { self.new.hosting ≡ self.old.hosting }
    {
        if !self.is_link(k) {
            return Ok(Seq::new(alloc));
        }
        if self.host.is_attached(k) {
            let texts = only(alloc, text.copy(alloc)?)?;
            self.queues.send(k, texts)?;
        }
        Ok(Seq::new(alloc))
    }

    /// The server notices that a connection is gone.
    pub(crate) fn gone(&mut self, alloc: Global, number: u64, k: u64) -> Result<Names, NoMemory>
        requires read { D.tells ≡ true → D.stops ≡ true → (fs : Files)
            → GoneReads k (host_in self.old.hosting.server fs) }
        ensures does { D.tells ≡ true → D.stops ≡ true
            → IfOk result (Does self.old self.new number (OfConnection k Gone)) }
        ensures opened { self.new.opened ≡ self.old.opened }
        ensures files { SameFiles self.old.hosting.server self.new.hosting.server }
    {
        if !self.host.is_attached(k) {
            return Ok(Seq::new(alloc));
        }
        let outs = self.host.gone(alloc, k)?;
        self.queues.gone(k);
        send_down(alloc, &mut self.queues, outs)?;
        Ok(Seq::new(alloc))
    }

    /// The client or the link of a connection receives what is next.
    pub(crate) fn down(&mut self, alloc: Global, number: u64, k: u64) -> Result<Names, NoMemory>
        ensures does { D.tells ≡ true → D.stops ≡ true → (fs : Files) (fuse : Option Fuse)
            → DownReads (world_in self.old fs fuse) k → IfOk result (λ ls.
            Did (step (world_in self.old fs fuse) number (OfConnection k Down)) ls (world_in self.new fs fuse)) }
        ensures opened { self.new.opened ≡ self.old.opened }
        ensures hosting { self.new.hosting ≡ self.old.hosting }
    {
        let owner = self.owner(k);
        let Some(mail) = self.queues.take(k) else {
            return Ok(Seq::new(alloc));
        };
        let Some(c) = owner else {
            return only(alloc, link_line(alloc, k, &mail)?);
        };
        self.take(alloc, number, c, k, &mail)
    }

    /// The client of a connection, if one dialled it.
    fn owner(&self, k: u64) -> Option<u64>
        ensures { result ≡ owner_of (get self.now.conns k) }
    {
        match self.queues.conn(k) {
            Some(conn) => conn.owner(),
            None => None,
        }
    }

    /// A client receives what came down on a connection.
    fn take(
        &mut self,
        alloc: Global,
        number: u64,
        c: u64,
        k: u64,
        mail: &Mail,
    ) -> Result<Names, NoMemory>
        ensures does { IsMail mail.now → (fs : Files) (fuse : Option Fuse)
            → AreFramesRead (replies_to (slot_in (get self.old.clients c)) (outbound_in mail.now)) → IfOk result (λ ls.
            Did (client_takes (world_in self.old fs fuse) number c k (slot_in (get self.old.clients c))
            (outbound_in mail.now)) ls (world_in self.new fs fuse)) }
        ensures opened { self.new.opened ≡ self.old.opened }
        ensures hosting { self.new.hosting ≡ self.old.hosting }
    {
        match self.slots.take(alloc, number, c, k, mail)? {
            Taken::Heard { lines, replies } => {
                let attached = self.host.is_attached(k);
                send_up(&mut self.queues, attached, k, replies)?;
                Ok(lines)
            },
            Taken::Lost { line, cut } => {
                self.cut_on(cut);
                only(alloc, line)
            },
        }
    }
}
