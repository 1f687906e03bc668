//! What is to be sent.
ghost use Rattle.std.specs.Prelude.{◌≡◌, ◌<◌, [], Some, length, map, slice_get, IfOk};
ghost use Rattle.room_json.specs.Value.{merged};
ghost use Rattle.room_json.specs.View.{members_view};
ghost use Rattle.room_model.specs.Account.{actor, issued, last_issued, batch_ops, last_clock};
ghost use Rattle.room_model.specs.Calls.{held};
ghost use Rattle.room_model.specs.Presence.{kept_names, unsent_members};

use crate::editor::Editor;
use crate::names::{is_among, keep_among};
use room_json::{Copied, Json, Members, NoMemory, Text};
use room_nodes::Op;
use room_tree::Tree;
use std::alloc::Global;
use std::collections::BTreeMap;

fn gather(
    alloc: Global,
    unsent: &[Text],
    held: &[Text],
    me: &BTreeMap<Text, Json>,
) -> Result<Members, NoMemory>
    ensures { IfOk result (λ m. m ≡ merged [] (unsent_members unsent.now held.now (members_view me.now.entries))) }
{
    let mut members = Members::new(alloc);
    for (name, value) in me.iter() {
        if is_among(name, unsent) && !is_among(name, held) {
            drop(members.set(name.copy(alloc)?, value.copy(alloc)?)?);
        }
    }
    Ok(members)
}

#[tactic(auto, using(crate::proofs::Ordered::unsent_merged))]
impl<T: Tree> Editor<T> {
    /// The members of the own presence that weren't sent to all and that no open batch holds back.
    pub fn unsent(&self, alloc: Global) -> Result<Members, NoMemory>
        ensures { IfOk result (λ m. m ≡ unsent_members self.now.unsent (held self.now) self.now.me) }
    {
        let me = self.me();
        me.len();
        gather(alloc, self.unsent_keys(), self.held(), me.as_map())
    }

    /// The unsent members were sent. Takes no memory.
    pub fn spoke(&mut self)
        ensures { self.new ≡ record self.old { unsent = kept_names self.old.unsent (held self.old) } }
    {
        keep_among(&mut self.unsent, self.gathering.keys().as_slice());
    }

    /// The last clock that was issued.
    pub fn last_issued(&self) -> u64
        ensures { result ≡ last_issued self.now }
    {
        match &self.over {
            Some(over) => over.last_issued(),
            None => 0,
        }
    }

    /// How many issued batches aren't acknowledged whole.
    pub fn issued(&self) -> usize
        ensures { result ≡ length (issued self.now) }
    {
        match &self.over {
            Some(over) => over.issued(),
            None => 0,
        }
    }

    /// The operations of an issued batch that aren't acknowledged.
    pub fn batch(&self, i: usize) -> &[Op]
        requires { i < length (issued self.now) }
        ensures { Some result.now ≡ slice_get (map (batch_ops (actor self.now)) (issued self.now)) i }
    {
        match &self.over {
            Some(over) => over.batch(i),
            None => unreachable!(),
        }
    }

    /// The clock of an issued batch's last operation.
    pub fn batch_last(&self, i: usize) -> u64
        requires { i < length (issued self.now) }
        ensures { Some result ≡ slice_get (map last_clock (issued self.now)) i }
    {
        match &self.over {
            Some(over) => over.batch_end(i),
            None => unreachable!(),
        }
    }
}
