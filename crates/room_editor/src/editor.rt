//! The editor, and what it says of itself.
ghost use Rattle.std.specs.Prelude.{◌≡◌, is_some, IfOk};
ghost use Rattle.std.specs.Option.{option_copied, option_map};
ghost use Rattle.room_json.specs.View.{json_of};
ghost use Rattle.room_model.specs.Account.{actor, issued, new_account, shown, unacknowledged};
ghost use Rattle.room_model.specs.History.{undo_count, redo_count};
ghost use Rattle.room_model.specs.Presence.{others_value};
ghost use Rattle.room_model.specs.Sound.{RunsOn};
ghost use Rattle.room_editor.specs.Editor.{at_rest};

use crate::gathering::Gathering;
use crate::past::Past;
use room_json::{Copied, Json, Members, NoMemory, Text};
use room_msg::Resume;
use room_overlay::Overlay;
use room_presence::Presence;
use room_tree::Tree;
use std::alloc::Global;
use std::marker::Model;

/// All of a client that lasts over its connections, and what its user does. Contracts see the client's account at rest.
///
/// The own presence is kept beside that of the others, so that an undo can set it without fail.
#[derive(Drop)]
pub struct Editor<T: Tree> {
    pub(crate) room: Text,
    pub(crate) session: Option<Resume>,
    pub(crate) over: Option<Overlay<T>>,
    pub(crate) node: u64,
    pub(crate) me: Members,
    pub(crate) others: Presence,
    pub(crate) unsent: Vec<Text>,
    pub(crate) past: Past,
    pub(crate) gathering: Gathering,
}

impl<T: Tree> Model for Editor<T> {
    ghost use Rattle.std.specs.Prelude.{◌≤◌};
    ghost use Rattle.room_model.specs.Account.{Account};
    ghost use Rattle.room_editor.specs.Codes.{account_code};
    ghost use Rattle.room_editor.specs.Editor.{account_of};
    ghost use Rattle.room_editor.specs.Standing.{StandsIn};

    ghost Value = { Account };

    ghost coded = { account_code };

    ghost view = { λ e.
        account_of e.room e.session e.over e.node e.me e.others.others e.unsent.items e.past e.gathering };

    ghost invariant = { λ e. (e.node ≤ 9007199254740992) × StandsIn e.session e.over e.gathering e.past };
}

#[tactic(auto, using(crate::proofs::Viewing::views))]
impl<T: Tree> Editor<T> {
    /// Of a client that has no session yet.
    pub fn new(alloc: Global, room: &Text) -> Result<Editor<T>, NoMemory>
        ensures { IfOk result (λ e. e ≡ new_account room.now) }
    {
        Ok(Editor {
            room: room.copy(alloc)?,
            session: None,
            over: None,
            node: 1,
            me: Members::new(alloc),
            others: Presence::new(alloc),
            unsent: Vec::new(alloc),
            past: Past::new(alloc)?,
            gathering: Gathering::new(alloc),
        })
    }

    /// That the account is at rest, and that the clocks of its issued batches run on.
    pub fn rests(&self)
        ensures rests { at_rest self.now ≡ self.now }
        ensures runs { RunsOn self.now.told (issued self.now) }
    {
        match &self.over {
            Some(over) => {
                over.last_issued();
            }
            None => {}
        }
    }

    /// The own actor, 0 while it isn't told.
    pub(crate) fn actor(&self) -> u32
        ensures { result ≡ actor self.now }
    {
        match self.session {
            Some(session) => session.actor,
            None => 0,
        }
    }

    /// Whether a batch is open.
    pub(crate) fn is_open(&self) -> bool
        ensures { result ≡ is_some self.now.batch }
    {
        self.gathering.is_open()
    }

    /// The presence keys that weren't sent to all.
    pub(crate) fn unsent_keys(&self) -> &[Text]
        ensures { result.now ≡ self.now.unsent }
    {
        self.unsent.as_slice()
    }

    /// The room's name.
    pub fn room(&self) -> &Text
        ensures { result.now ≡ self.now.room }
    {
        &self.room
    }

    /// The session, once it is told.
    pub fn session(&self) -> Option<Resume>
        ensures { result ≡ self.now.session }
    {
        self.session
    }

    /// The tree that is shown, from the first state on.
    pub fn shown(&self) -> Option<&T>
        ensures { option_map T.nodes (option_copied result) ≡ shown self.now }
    {
        match &self.over {
            Some(over) => Some(over.shown()),
            None => None,
        }
    }

    /// The number of the last update taken.
    pub fn taken(&self) -> u64
        ensures { result ≡ self.now.n }
    {
        match &self.over {
            Some(over) => over.taken(),
            None => 0,
        }
    }

    /// The last acknowledged clock.
    pub fn told(&self) -> u64
        ensures { result ≡ self.now.told }
    {
        match &self.over {
            Some(over) => over.told(),
            None => 0,
        }
    }

    /// How many issued batches aren't acknowledged whole, and the open one, if it holds operations.
    pub fn unacknowledged(&self) -> u64
        ensures { result ≡ unacknowledged self.now }
    {
        match &self.over {
            Some(over) => over.batches(),
            None => 0,
        }
    }

    /// The own presence.
    pub fn me(&self) -> &Members
        ensures { result.now ≡ self.now.me }
    {
        &self.me
    }

    /// An object from actor, in decimal, to presence.
    pub fn others(&self, alloc: Global) -> Result<Json, NoMemory>
        ensures { IfOk result (λ j. json_of j ≡ others_value self.now.others) }
    {
        self.others.others(alloc)
    }

    /// How many entries can be undone.
    pub fn undo_count(&self) -> u64
        ensures { result ≡ undo_count self.now.history }
    {
        self.past.undo_count()
    }

    /// How many entries can be redone.
    pub fn redo_count(&self) -> u64
        ensures { result ≡ redo_count self.now.history }
    {
        self.past.redo_count()
    }
}
