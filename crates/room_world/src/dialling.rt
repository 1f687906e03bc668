//! Lines of clients that change what waits: dialling, sending, and a loss that the client notices.
ghost use Rattle.std.specs.Prelude.{◌≡◌, ◌≤◌, ◌+◌, ◌<◌, ◌^◌, List, [], ◌∷◌, map, IfOk, OnOk};
ghost use Rattle.room_model.specs.Calls.{dialled, hello_of, flush_frames, resend_frames};
ghost use Rattle.room_model.specs.Lines.{OfClient, Dial, Flush, Resend, Cut};
ghost use Rattle.room_model.specs.World.{cut_present, open_conn, send_present, slot_in};
ghost use Rattle.room_msg.specs.Written.{client_text};
ghost use Rattle.room_msg.specs.declared.messages.ClientMsg.{ClientMsg};
ghost use Rattle.std.specs.FinMap.{get};
ghost use Rattle.room_moves.specs.Reading.{AreFramesRead};
ghost use Rattle.room_host.specs.Rests.{SameFiles};
ghost use Rattle.room_world.specs.Did.{Does, Becomes};

use crate::clients::only;
use crate::sending::send_up;
use crate::world::World;
use room_fuse::Stopping;
use room_json::{Names, NoMemory, Seq};
use room_tree::Tree;
use std::alloc::Global;

impl<T: Tree, D: Stopping> World<T, D> {
    /// What goes down on a client's connection is lost, and nothing more enters there.
    pub(crate) fn cut_on(&mut self, present: Option<u64>)
        ensures cuts { Becomes self.old self.new (λ w. cut_present w present) }
        ensures clients { self.new.clients ≡ self.old.clients }
        ensures opened { self.new.opened ≡ self.old.opened }
        ensures hosting { self.new.hosting ≡ self.old.hosting }
    {
        if let Some(k) = present {
            self.queues.cut(k);
        }
    }

    /// The present connection of a client.
    fn present(&self, c: u64) -> Option<u64>
        ensures { result ≡ (slot_in (get self.now.clients c)).present }
    {
        self.slots.present(c)
    }

    /// A new connection, of a client or of none: its number.
    pub(crate) fn open(&mut self, alloc: Global, owner: Option<u64>) -> Result<u64, NoMemory>
        requires room { self.old.opened + 1 < 2 ^ 64 }
        ensures number { IfOk result (λ k. k ≡ self.old.opened + 1) }
        ensures opens { OnOk result (Becomes self.old self.new (λ w. open_conn w owner)) }
        ensures clients { self.new.clients ≡ self.old.clients }
        ensures opened { self.new.opened ≤ self.old.opened + 1 }
        ensures files { SameFiles self.old.hosting.server self.new.hosting.server }
    {
        let k = self.opened + 1;
        self.host.opened(k)?;
        self.queues.open(alloc, k, owner)?;
        self.opened = k;
        Ok(k)
    }

    /// The client drops its connection, and its first frame goes up on a new one.
    pub(crate) fn dial(&mut self, alloc: Global, number: u64, c: u64) -> Result<Names, NoMemory>
        requires room { self.old.opened + 1 < 2 ^ 64 }
        ensures does { AreFramesRead (hello_of (dialled (slot_in (get self.old.clients c)).account) ∷ [])
            → IfOk result (Does self.old self.new number (OfClient c Dial)) }
        ensures opened { self.new.opened ≤ self.old.opened + 1 }
        ensures files { SameFiles self.old.hosting.server self.new.hosting.server }
    {
        let present = self.present(c);
        self.cut_on(present);
        let k = self.open(alloc, Some(c))?;
        let hello = self.slots.dial(alloc, c, k)?;
        let attached = self.host.is_attached(k);
        send_up(&mut self.queues, attached, k, only(alloc, hello)?)?;
        Ok(Seq::new(alloc))
    }

    /// The client notices a loss.
    pub(crate) fn cut(&mut self, alloc: Global, number: u64, c: u64) -> Result<Names, NoMemory>
        ensures does { IfOk result (Does self.old self.new number (OfClient c Cut)) }
        ensures opened { self.new.opened ≡ self.old.opened }
        ensures hosting { self.new.hosting ≡ self.old.hosting }
    {
        let present = self.present(c);
        self.cut_on(present);
        self.slots.cut(alloc, c)?;
        Ok(Seq::new(alloc))
    }

    /// Texts go up on a client's connection, if it has one.
    fn send_present(&mut self, present: Option<u64>, texts: Names) -> Result<(), NoMemory>
        ensures sends { (frames : List (List ClientMsg)) → texts ≡ map client_text frames → AreFramesRead frames
            → OnOk result (Becomes self.old self.new (λ w. send_present w present frames)) }
        ensures opened { self.new.opened ≡ self.old.opened }
        ensures hosting { self.new.hosting ≡ self.old.hosting }
    {
        match present {
            Some(k) => {
                let attached = self.host.is_attached(k);
                send_up(&mut self.queues, attached, k, texts)
            },
            None => Ok(()),
        }
    }

    /// What is to be sent now goes up.
    pub(crate) fn flush(&mut self, alloc: Global, number: u64, c: u64) -> Result<Names, NoMemory>
        ensures does { AreFramesRead (flush_frames (slot_in (get self.old.clients c)).account)
            → IfOk result (Does self.old self.new number (OfClient c Flush)) }
        ensures opened { self.new.opened ≡ self.old.opened }
        ensures hosting { self.new.hosting ≡ self.old.hosting }
    {
        let present = self.present(c);
        let texts = self.slots.flush(alloc, c)?;
        self.send_present(present, texts)?;
        Ok(Seq::new(alloc))
    }

    /// All batches that aren't acknowledged go up again.
    pub(crate) fn resend(&mut self, alloc: Global, number: u64, c: u64) -> Result<Names, NoMemory>
        ensures does { AreFramesRead (resend_frames (slot_in (get self.old.clients c)).account)
            → IfOk result (Does self.old self.new number (OfClient c Resend)) }
        ensures opened { self.new.opened ≡ self.old.opened }
        ensures hosting { self.new.hosting ≡ self.old.hosting }
    {
        let present = self.present(c);
        let texts = self.slots.resend(alloc, c)?;
        self.send_present(present, texts)?;
        Ok(Seq::new(alloc))
    }
}
