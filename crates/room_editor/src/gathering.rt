//! What an open batch gathers beside its operations.
ghost use Rattle.std.specs.Prelude.{◌≡◌, ◌++◌, [], Some, None, true, is_some, reverse, OnOk, OnErr};
ghost use Rattle.room_log.specs.Log.{bodies_of, ops_from};
ghost use Rattle.room_model.specs.History.{note};
ghost use Rattle.room_overlay.specs.Over.{next_clock, added_to};
ghost use Rattle.room_editor.specs.Gathering.{gathered_more, patched, bytes_in, keys_in, changes_in};

use crate::past::Past;
use room_json::{Names, NoMemory, Seq};
use room_nodes::{Change, Changes, Ops};
use room_overlay::Overlay;
use room_tree::Tree;
use std::alloc::Global;
use std::marker::Model;

/// What an open batch gathers beside its operations: the bytes that these take in a frame, what takes them back, and
/// the presence keys. Contracts see it while a batch is open.
///
/// What takes the operations back is kept with the newest last, and turned when the batch ends.
#[derive(Drop)]
pub(crate) struct Gathering {
    open: bool,
    bytes: u64,
    back: Vec<Change>,
    keys: Names,
}

impl Model for Gathering {
    ghost use Rattle.std.specs.Prelude.{Option, reverse};
    ghost use Rattle.std.specs.Coded.{codes};
    ghost use Rattle.room_editor.specs.Codes.{gathered_code};
    ghost use Rattle.room_editor.specs.Editor.{Gathered};
    ghost use Rattle.room_editor.specs.Gathering.{gathered_in, IsBare};

    ghost Value = { Option Gathered };

    ghost coded = { Prim.hlevel (codes, gathered_code) };

    ghost view = { λ g. gathered_in g.«open» g.bytes (reverse g.back.items) g.keys };

    ghost invariant = { λ g. IsBare g.«open» g.bytes g.back.items g.keys };
}

/// Puts changes in front of those that are kept turned. A refused call changes nothing.
pub(crate) fn put_before(turned: &mut Vec<Change>, changes: Changes) -> Result<(), NoMemory>
    ensures ok { OnOk result (reverse turned.new.items ≡ changes ++ reverse turned.old.items) }
    ensures err { OnErr result (turned.new.items ≡ turned.old.items) }
{
    let mut more = changes.into_vec();
    more.reverse();
    turned.append(&mut more)?;
    Ok(())
}

impl Gathering {
    /// No batch is open.
    pub(crate) fn new(alloc: Global) -> Gathering
        ensures { result ≡ None }
    {
        Gathering {
            open: false,
            bytes: 0,
            back: Vec::new(alloc),
            keys: Seq::new(alloc),
        }
    }

    /// Whether a batch is open.
    pub(crate) fn is_open(&self) -> bool
        ensures { result ≡ is_some self.now }
    {
        self.open
    }

    /// The bytes that the operations take in a frame.
    pub(crate) fn bytes(&self) -> u64
        ensures { result ≡ bytes_in self.now }
    {
        self.bytes
    }

    /// The presence keys.
    pub(crate) fn keys(&self) -> &Names
        ensures { result.now ≡ keys_in self.now }
    {
        &self.keys
    }

    /// A batch opens.
    pub(crate) fn begin(&mut self)
        requires { self.old ≡ None }
        ensures { self.new ≡ Some (record { bytes = 0; changes = []; keys = [] }) }
    {
        self.open = true;
    }

    /// Local operations go into the open batch: into an overlay, and what takes them back here. With them they take so
    /// many bytes. A refused call changes nothing.
    pub(crate) fn put_in<T: Tree>(
        &mut self,
        alloc: Global,
        over: &mut Overlay<T>,
        ops: &Ops,
        back: Changes,
        bytes: u64,
    ) -> Result<(), NoMemory>
        requires next { ops.now ≡ ops_from over.old.actor (next_clock over.old) (bodies_of ops.now) }
        requires open { is_some self.old ≡ true }
        ensures over { OnOk result (over.new ≡ added_to over.old (bodies_of ops.now)) }
        ensures more { OnOk result (self.new ≡ gathered_more bytes back self.old) }
        ensures err { OnErr result (over.new ≡ over.old) }
        ensures same { OnErr result (self.new ≡ self.old) }
    {
        let mut more = back.into_vec();
        more.reverse();
        self.back.reserve(more.len())?;
        let continues = over.is_open();
        over.local(alloc, ops, continues)?;
        self.back.append(&mut more).unwrap();
        self.bytes = bytes;
        Ok(())
    }

    /// A patch was made, with which these are the keys, and which these changes take back. A refused call changes
    /// nothing.
    pub(crate) fn patch(&mut self, back: Changes, keys: Names) -> Result<(), NoMemory>
        requires { is_some self.old ≡ true }
        ensures ok { OnOk result (self.new ≡ patched keys back self.old) }
        ensures err { OnErr result (self.new ≡ self.old) }
    {
        put_before(&mut self.back, back)?;
        self.keys = keys;
        Ok(())
    }

    /// The batch ends, and what takes it back is noted. A refused call changes nothing.
    pub(crate) fn end(&mut self, past: &mut Past) -> Result<(), NoMemory>
        ensures none { OnOk result (self.new ≡ None) }
        ensures noted { OnOk result (past.new ≡ note (changes_in self.old) past.old) }
        ensures err { OnErr result (past.new ≡ past.old) }
        ensures same { OnErr result (self.new ≡ self.old) }
    {
        self.back.reserve(past.gathered())?;
        let alloc = *self.back.allocator();
        let mut changes = std::mem::replace(&mut self.back, Vec::new(alloc));
        changes.reverse();
        past.note(changes);
        self.open = false;
        self.bytes = 0;
        self.keys = Seq::new(alloc);
        Ok(())
    }
}
