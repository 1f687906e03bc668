//! The client, and what it says of itself.
ghost use Rattle.std.specs.Prelude.{◌≡◌, [], false, IfOk, OnOk, OnErr};
ghost use Rattle.std.specs.Option.{option_copied, option_map};
ghost use Rattle.room_json.specs.View.{json_of};
ghost use Rattle.room_msg.specs.Written.{client_text};
ghost use Rattle.room_model.specs.Account.{is_on, new_account, shown, unacknowledged};
ghost use Rattle.room_model.specs.Calls.{dialled, hello_of, lost};
ghost use Rattle.room_model.specs.History.{undo_count, redo_count};
ghost use Rattle.room_model.specs.Presence.{others_value};
ghost use Rattle.room_client.specs.Client.{stage_of};

use crate::frames::of_hello;
use crate::parts::Parts;
use crate::stage::Stage;
use room_editor::Editor;
use room_json::{Json, Members, NoMemory, Seq, Text};
use room_tree::Tree;
use std::alloc::Global;
use std::marker::Model;

/// A client of a room. Contracts see its account.
///
/// The editor has all that lasts over its connections. A connection adds how far it is, the clock up to which issued
/// batches were sent on it, the parts of a state that came so far, and the events that wait.
#[derive(Drop)]
pub struct Client<T: Tree> {
    pub(crate) editor: Editor<T>,
    pub(crate) stage: Stage,
    pub(crate) sent_to: u64,
    pub(crate) parts: Parts,
    pub(crate) events: Seq<Json>,
}

impl<T: Tree> Model for Client<T> {
    ghost use Rattle.room_model.specs.Account.{Account};
    ghost use Rattle.room_editor.specs.Codes.{account_code};
    ghost use Rattle.room_client.specs.Client.{Stands, client_of, parts_of, stage_of};

    ghost Value = { Account };

    ghost coded = { account_code };

    ghost view = { λ c. client_of c.editor (stage_of c.stage) c.sent_to (parts_of c.parts) c.events };

    ghost invariant = { λ c. Stands c.editor (stage_of c.stage) c.sent_to };
}

impl<T: Tree> Client<T> {
    /// Of a room, with no session yet and no connection.
    pub fn new(alloc: Global, room: &Text) -> Result<Client<T>, NoMemory>
        ensures { IfOk result (λ c. c ≡ new_account room.now) }
    {
        Ok(Client {
            editor: Editor::new(alloc, room)?,
            stage: Stage::Idle,
            sent_to: 0,
            parts: Parts::new(alloc),
            events: Seq::new(alloc),
        })
    }

    /// The tree that is shown, from the first state on.
    pub fn shown(&self) -> Option<&T>
        ensures { option_map T.nodes (option_copied result) ≡ shown self.now }
    {
        self.editor.shown()
    }

    /// The number of the last update taken.
    pub fn taken(&self) -> u64
        ensures { result ≡ self.now.n }
    {
        self.editor.taken()
    }

    /// How many issued batches aren't acknowledged whole, and the open one, if it holds operations.
    pub fn unacknowledged(&self) -> u64
        ensures { result ≡ unacknowledged self.now }
    {
        self.editor.unacknowledged()
    }

    /// The own presence.
    pub fn me(&self) -> &Members
        ensures { result.now ≡ self.now.me }
    {
        self.editor.me()
    }

    /// An object from actor, in decimal, to presence.
    pub fn others(&self, alloc: Global) -> Result<Json, NoMemory>
        ensures { IfOk result (λ j. json_of j ≡ others_value self.now.others) }
    {
        self.editor.others(alloc)
    }

    /// How many entries can be undone.
    pub fn undo_count(&self) -> u64
        ensures { result ≡ undo_count self.now.history }
    {
        self.editor.undo_count()
    }

    /// How many entries can be redone.
    pub fn redo_count(&self) -> u64
        ensures { result ≡ redo_count self.now.history }
    {
        self.editor.redo_count()
    }
}

impl<T: Tree> Client<T> {
    /// The connection is lost: what was sent on it counts as not sent, queued events, kept parts and what is shown of
    /// the others go. All else stays. Takes no memory.
    pub fn lost(&mut self, alloc: Global)
        ensures { self.new ≡ lost self.old }
    {
        self.hang_up(alloc, Stage::Idle);
    }

    /// Drops an old connection and begins a new one: answers its first frame, a hello, that resumes the session once it
    /// is known. Out of memory changes nothing.
    pub fn dial(&mut self, alloc: Global) -> Result<Text, NoMemory>
        ensures text { IfOk result (λ t. t ≡ client_text (hello_of self.old)) }
        ensures ok { OnOk result (self.new ≡ dialled self.old) }
        ensures err { OnErr result (self.new ≡ self.old) }
    {
        let hello = of_hello(alloc, self.editor.room(), self.editor.session())?;
        self.hang_up(alloc, Stage::Dialled);
        Ok(hello)
    }

    /// No connection is known any more but one at this stage.
    fn hang_up(&mut self, alloc: Global, stage: Stage)
        requires { is_on (stage_of stage) ≡ false }
        ensures { self.new ≡ record (lost self.old) { stage = stage_of stage } }
    {
        self.editor.rests();
        self.editor.forget_all();
        self.stage = stage;
        self.sent_to = 0;
        self.parts = Parts::new(alloc);
        self.events = Seq::new(alloc);
    }
}
