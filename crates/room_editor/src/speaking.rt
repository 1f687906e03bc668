//! Presence.
ghost use Rattle.std.specs.Prelude.{◌≡◌, Bool, Ok, IfOk, IfErr, OnOk, OnErr};
ghost use Rattle.room_json.specs.Value.{depth as depth_of, merged};
ghost use Rattle.room_json.specs.View.{json_of};
ghost use Rattle.room_model.specs.Calls.{held, presence, patched_me, back_noted};
ghost use Rattle.room_model.specs.Edits.{fields_most};
ghost use Rattle.room_model.specs.Presence.{nobody, other_full, other_patched, with_names as with_names_of};
ghost use Rattle.room_model.specs.Receive.{forgets};
ghost use Rattle.room_editor.specs.Faults.{IsSayFault};
ghost use Rattle.room_editor.specs.Standing.{ArePatches};

use crate::editor::Editor;
use crate::entries::patch_back;
use crate::faults::SayFault;
use crate::names::with_names;
use crate::sizes::presence_bytes;
use room_json::{Copied, Json, Members, Names, NoMemory, Text, depth, merge};
use room_msg::MAX_FRAME;
use room_nodes::Changes;
use room_props::MAX_VALUE_DEPTH;
use room_tree::Tree;
use std::alloc::Global;

/// The greatest depth of a patch's values.
fn deepest(patch: &Members) -> Result<u64, NoMemory>
    ensures { IfOk result (λ d. d ≡ fields_most patch.now) }
{
    let mut most = 0;
    for (_name, value) in patch.as_map().iter() {
        most = exact_depth(value)?.max(most);
    }
    Ok(most)
}

/// The depth of a value, unless it is deeper than any memory.
fn exact_depth(value: &Json) -> Result<u64, NoMemory>
    ensures { IfOk result (λ d. d ≡ depth_of (json_of value.now)) }
{
    let levels = depth(value);
    if levels == u64::MAX {
        return Err(NoMemory);
    }
    Ok(levels)
}

#[tactic(auto, using(crate::proofs::Patches::stands))]
impl<T: Tree> Editor<T> {
    /// The own presence with a patch, unless a value is too deep or the whole is too large.
    fn patched(&self, alloc: Global, patch: &Members) -> Result<Members, SayFault>
        ensures me { IfOk result (λ me. me ≡ merged self.now.me patch.now) }
        ensures good { OnOk result ((yes : Bool) → presence self.now patch.now yes
            ≡ Ok (patched_me self.now patch.now (back_noted self.now patch.now yes))) }
        ensures err { IfErr result (λ f. (yes : Bool) → IsSayFault (presence self.now patch.now yes) f) }
    {
        let levels = deepest(patch)?;
        if levels > MAX_VALUE_DEPTH {
            return Err(SayFault::ValueTooDeep(levels));
        }
        let mut me = self.me().copy(alloc)?;
        merge(alloc, &mut me, patch)?;
        let size = presence_bytes(alloc, &me)?;
        if size > MAX_FRAME {
            return Err(SayFault::TooLarge(size));
        }
        Ok(me)
    }

    /// What takes a patch back, if that is to be noted.
    fn noted(&self, alloc: Global, patch: &Members, in_history: bool) -> Result<Changes, NoMemory>
        ensures back { IfOk result (λ cs. cs ≡ back_noted self.now patch.now in_history) }
        ensures patches { IfOk result ArePatches }
    {
        if in_history {
            patch_back(alloc, self.me(), patch)
        } else {
            Ok(Changes::new(alloc))
        }
    }

    /// The presence keys of the open batch.
    pub(crate) fn held(&self) -> &[Text]
        ensures { result.now ≡ held self.now }
    {
        self.gathering.keys().as_slice()
    }

    /// A patch is merged, and what takes it back goes into the open batch or is noted. A refused call changes nothing.
    fn put_patch(
        &mut self,
        alloc: Global,
        patch: &Members,
        me: Members,
        unsent: Names,
        back: Changes,
    ) -> Result<(), NoMemory>
        requires me { me ≡ merged self.old.me patch.now }
        requires unsent { unsent ≡ with_names_of self.old.unsent patch.now }
        requires patches { ArePatches back }
        ensures ok { OnOk result (self.new ≡ patched_me self.old patch.now back) }
        ensures err { OnErr result (self.new ≡ self.old) }
    {
        if self.gathering.is_open() {
            let keys = with_names(alloc, self.gathering.keys().as_slice(), patch)?;
            self.gathering.patch(back, keys)?;
        } else {
            let back = self.past.ready(back)?;
            self.past.note(back);
        }
        self.me = me;
        self.unsent = unsent.into_vec();
        Ok(())
    }

    /// Merges a patch into the own presence; with `in_history` what takes it back is noted. Never answers
    /// `NotConnected`. A refused call changes nothing.
    pub fn presence(
        &mut self,
        alloc: Global,
        patch: &Members,
        in_history: bool,
    ) -> Result<(), SayFault>
        ensures ok { OnOk result (presence self.old patch.now in_history ≡ Ok self.new) }
        ensures fault { IfErr result (IsSayFault (presence self.old patch.now in_history)) }
        ensures err { OnErr result (self.new ≡ self.old) }
    {
        let me = self.patched(alloc, patch)?;
        let unsent = with_names(alloc, self.unsent_keys(), patch)?;
        let back = self.noted(alloc, patch, in_history)?;
        self.put_patch(alloc, patch, me, unsent, back)?;
        Ok(())
    }

    /// Takes another's full presence in place of what was shown. A refused call changes nothing.
    pub fn others_full(&mut self, alloc: Global, actor: u32, full: &Members) -> Result<(), NoMemory>
        ensures ok { OnOk result
            (self.new ≡ record self.old { others = other_full self.old.others actor full.now }) }
        ensures err { OnErr result (self.new ≡ self.old) }
    {
        self.others.full(alloc, actor, full)
    }

    /// Merges a patch into another's presence, and does nothing where no full one was taken. A refused call changes
    /// nothing.
    pub fn others_patch(
        &mut self,
        alloc: Global,
        actor: u32,
        patch: &Members,
    ) -> Result<(), NoMemory>
        ensures ok { OnOk result
            (self.new ≡ record self.old { others = other_patched self.old.others actor patch.now }) }
        ensures err { OnErr result (self.new ≡ self.old) }
    {
        self.others.patch(alloc, actor, patch)
    }

    /// Shows nothing more of another until the next full presence.
    pub fn forget(&mut self, actor: u32)
        ensures { self.new ≡ forgets self.old actor }
    {
        self.others.forget(actor);
    }

    /// Shows nothing more of the others.
    pub fn forget_all(&mut self)
        ensures { self.new ≡ record self.old { others = nobody } }
    {
        self.others.forget_all();
    }
}
