//! The own presence, and what is shown of the others.
ghost use Rattle.std.specs.Prelude.{◌≡◌, [], map, IfOk, OnOk, OnErr};
ghost use Rattle.std.specs.FinMap.{entries};
ghost use Rattle.room_presence.specs.Shown.{as_map};
ghost use Rattle.room_json.specs.Value.{merged};
ghost use Rattle.room_json.specs.View.{json_of};
ghost use Rattle.room_model.specs.Presence.{nobody, other_full, other_patched as patched, forgotten};
ghost use Rattle.room_model.specs.Presence.{other_out, others_value};

use room_json::{Copied, Json, Members, NoMemory, Text, merge};
use std::alloc::Global;
use std::collections::BTreeMap;
use std::marker::Model;

/// The own presence, which is its patches merged in order, and the others' by actor: the last full one of each, with
/// each patch since merged. Contracts see both.
#[derive(Drop)]
pub struct Presence {
    me: Members,
    others: BTreeMap<u32, Members>,
}

impl Model for Presence {
    ghost use Rattle.std.specs.Coded.{codes};
    ghost use Rattle.room_json.specs.Codes.{coded_list_of_fields};
    ghost use Rattle.room_presence.specs.Shown.{Shown, as_map, others_code};

    ghost Value = { Shown };

    ghost coded = { Prim.hlevel (codes, coded_list_of_fields, others_code) };

    ghost view = { λ p. record { me = p.me; others = as_map p.others.entries } };
}

#[tactic(auto, using(crate::proofs::Maps::entries_are))]
/// The members of an object from actor, in decimal, to presence.
fn as_members(alloc: Global, others: &BTreeMap<u32, Members>) -> Result<Members, NoMemory>
    ensures { IfOk result (λ m. m ≡ merged [] (map other_out (entries (as_map others.now.entries)))) }
{
    let mut object = Members::new(alloc);
    for (actor, shown) in others.iter() {
        let name = Text::from_str(alloc, actor.to_string(alloc)?.as_str())?;
        drop(object.set(name, Json::Object(shown.copy(alloc)?))?);
    }
    Ok(object)
}

#[tactic(auto, using(crate::proofs::Maps::views))]
impl Presence {
    /// An empty one, and nobody else's.
    pub fn new(alloc: Global) -> Presence
        ensures { result ≡ record { me = []; others = nobody } }
    {
        Presence {
            me: Members::new(alloc),
            others: BTreeMap::new(alloc),
        }
    }

    /// Merges a patch into the own presence. A refused call changes nothing.
    pub fn patch_me(&mut self, alloc: Global, patch: &Members) -> Result<(), NoMemory>
        ensures ok { OnOk result (self.new ≡ record self.old { me = merged self.old.me patch.now }) }
        ensures err { OnErr result (self.new ≡ self.old) }
    {
        merge(alloc, &mut self.me, patch)
    }

    /// Takes an actor's full presence in place of what was shown. A refused call changes nothing.
    pub fn full(&mut self, alloc: Global, actor: u32, full: &Members) -> Result<(), NoMemory>
        ensures ok { OnOk result (self.new ≡ record self.old { others = other_full self.old.others actor full.now }) }
        ensures err { OnErr result (self.new ≡ self.old) }
    {
        self.others.insert(actor, full.copy(alloc)?)?;
        Ok(())
    }

    /// Merges a patch into an actor's presence, and does nothing where no full one was taken. A refused call changes
    /// nothing.
    pub fn patch(&mut self, alloc: Global, actor: u32, patch: &Members) -> Result<(), NoMemory>
        ensures ok { OnOk result (self.new ≡ record self.old { others = patched self.old.others actor patch.now }) }
        ensures err { OnErr result (self.new ≡ self.old) }
    {
        let Some(shown) = self.others.get_mut(&actor) else {
            return Ok(());
        };
        merge(alloc, shown, patch)
    }

    /// Shows nothing more of an actor until its next full presence.
    pub fn forget(&mut self, actor: u32)
        ensures { self.new ≡ record self.old { others = forgotten self.old.others actor } }
    {
        drop(self.others.remove(&actor));
    }

    /// Shows nothing more of the others. The own presence stays.
    pub fn forget_all(&mut self)
        ensures { self.new ≡ record self.old { others = nobody } }
    {
        self.others.clear();
    }

    /// The own presence.
    pub fn me(&self) -> &Members
        ensures { result.now ≡ self.now.me }
    {
        &self.me
    }

    /// An object from actor, in decimal, to presence.
    pub fn others(&self, alloc: Global) -> Result<Json, NoMemory>
        ensures { IfOk result (λ j. json_of j ≡ others_value self.now.others) }
    {
        Ok(Json::Object(as_members(alloc, &self.others)?))
    }
}
