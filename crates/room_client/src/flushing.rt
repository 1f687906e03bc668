//! What a client sends.
ghost use Rattle.std.specs.Prelude.{◌≡◌, ◌≤◌, ◌+◌, ◌-◌, ◌++◌, [], ℕ, List, map, drop, length, true};
ghost use Rattle.std.specs.Prelude.{◌∷◌, if◌then◌else◌, nat_lt, IfOk, OnOk, OnErr};
ghost use Rattle.room_json.specs.Limits.{max_whole};
ghost use Rattle.room_nodes.specs.declared.nodes.Body.{Body};
ghost use Rattle.room_log.specs.Log.{ops_from};
ghost use Rattle.room_msg.specs.Written.{client_text};
ghost use Rattle.room_model.specs.Account.{actor, beyond, frame_of, frame_of_ops, issued, last_issued};
ghost use Rattle.room_model.specs.Account.{is_on as is_on_of, is_synced as is_synced_of};
ghost use Rattle.room_model.specs.Calls.{flush_frames, flushed, held, patch_frames, resend_frames, resent};
ghost use Rattle.room_model.specs.Presence.{unsent_members};
ghost use Rattle.room_client.specs.Client.{behind, stage_of};

use crate::client::Client;
use crate::frames::{Frames, of_ops, of_patch, put_events};
use crate::stage::{Stage, is_on, is_synced};
use room_editor::Editor;
use room_json::{NoMemory, Seq};
use room_nodes::Op;
use room_tree::Tree;
use std::alloc::Global;

/// The index of the first issued batch that ends behind a clock, or how many there are.
fn first_behind<T: Tree>(editor: &Editor<T>, c: u64) -> usize
    ensures value { drop result (issued editor.now) ≡ behind c (issued editor.now) }
    ensures bound { result ≤ length (issued editor.now) }
{
    let mut at = 0;
    while at < editor.issued() && editor.batch_last(at) <= c {
        at += 1;
    }
    at
}

/// Appends a frame for each issued batch from an index on.
fn put_batches<T: Tree>(
    alloc: Global,
    frames: &mut Frames,
    editor: &Editor<T>,
    from: usize,
) -> Result<(), NoMemory>
    requires { from ≤ length (issued editor.now) }
    ensures { OnOk result (frames.new ≡ frames.old
        ++ map client_text (map (frame_of (actor editor.now)) (drop from (issued editor.now)))) }
{
    for at in from..editor.issued() {
        frames.push(of_ops(alloc, editor.batch(at))?)?;
    }
    Ok(())
}

/// The operations behind the first.
fn skip(ops: &[Op], count: u64) -> &[Op]
    ensures { result.now ≡ drop count ops.now }
{
    ops.split_at(ops.len().min(count as usize)).1
}

/// The operations beyond a clock, of some that run on.
fn left_of(ops: &[Op], c: u64) -> &[Op]
    requires { c ≤ max_whole }
    ensures { (a first : ℕ) (bs : List Body) → ops.now ≡ ops_from a first bs
        → result.now ≡ drop (c + 1 - first) ops.now }
{
    match ops {
        [first, ..] => {
            let clock = first.id.0.clock();
            if clock > c {
                ops
            } else {
                skip(ops, c - clock + 1)
            }
        }
        [] => ops,
    }
}

/// Appends a frame for what is left of a batch beyond a clock, where it ends behind it.
fn put_rest(
    alloc: Global,
    frames: &mut Frames,
    ops: &[Op],
    end: u64,
    c: u64,
) -> Result<(), NoMemory>
    requires { c ≤ max_whole }
    ensures { OnOk result ((a first : ℕ) (bs : List Body) → ops.now ≡ ops_from a first bs
        → frames.new ≡ frames.old ++ (if nat_lt c end
        then client_text (frame_of_ops (drop (c + 1 - first) ops.now)) ∷ [] else [])) }
{
    if end <= c {
        return Ok(());
    }
    frames.push(of_ops(alloc, left_of(ops, c))?)?;
    Ok(())
}

/// Appends a frame for what is left of each issued batch beyond a clock.
pub(crate) fn put_left<T: Tree>(
    alloc: Global,
    frames: &mut Frames,
    editor: &Editor<T>,
    c: u64,
) -> Result<(), NoMemory>
    requires { c ≤ max_whole }
    ensures { OnOk result (frames.new ≡ frames.old
        ++ map client_text (map (frame_of (actor editor.now)) (beyond c (issued editor.now)))) }
{
    for at in 0..editor.issued() {
        put_rest(alloc, frames, editor.batch(at), editor.batch_last(at), c)?;
    }
    Ok(())
}

/// Appends a frame for each issued batch behind a clock, once the state is told.
fn put_fresh<T: Tree>(
    alloc: Global,
    frames: &mut Frames,
    editor: &Editor<T>,
    stage: Stage,
    sent_to: u64,
) -> Result<(), NoMemory>
    ensures { OnOk result (frames.new ≡ frames.old ++ map client_text (if is_synced_of (stage_of stage)
        then map (frame_of (actor editor.now)) (behind sent_to (issued editor.now)) else [])) }
{
    if is_synced(stage) {
        put_batches(alloc, frames, editor, first_behind(editor, sent_to))
    } else {
        Ok(())
    }
}

/// The clock up to which all is sent then.
fn sent_then<T: Tree>(editor: &Editor<T>, stage: Stage, sent_to: u64) -> u64
    ensures { result ≡ (if is_synced_of (stage_of stage) then last_issued editor.now else sent_to) }
{
    if is_synced(stage) {
        editor.last_issued()
    } else {
        sent_to
    }
}

/// Appends a frame for the unsent members of the own presence, if there are any.
fn put_patch<T: Tree>(
    alloc: Global,
    frames: &mut Frames,
    editor: &Editor<T>,
) -> Result<(), NoMemory>
    ensures { OnOk result (frames.new ≡ frames.old ++ map client_text
        (patch_frames (unsent_members editor.now.unsent (held editor.now) editor.now.me))) }
{
    let patch = editor.unsent(alloc)?;
    if patch.len() > 0 {
        frames.push(of_patch(alloc, patch)?)?;
    }
    Ok(())
}

impl<T: Tree> Client<T> {
    /// The frames that are to be sent now: once the session is told, one patch with the unsent keys of the own presence
    /// that no open batch holds back, if there are any, one for each queued event, and, once the state is told, one for
    /// each issued batch that wasn't sent on this connection. Out of memory changes nothing.
    pub fn flush(&mut self, alloc: Global) -> Result<Frames, NoMemory>
        ensures frames { IfOk result (λ fs. fs ≡ map client_text (flush_frames self.old)) }
        ensures ok { OnOk result (self.new ≡ flushed self.old) }
        ensures err { OnErr result (self.new ≡ self.old) }
    {
        let mut frames = Seq::new(alloc);
        if !is_on(self.stage) {
            return Ok(frames);
        }
        put_patch(alloc, &mut frames, &self.editor)?;
        put_events(alloc, &mut frames, self.events.as_slice())?;
        put_fresh(alloc, &mut frames, &self.editor, self.stage, self.sent_to)?;
        self.all_sent(alloc);
        Ok(frames)
    }

    /// What `flush` answers is sent.
    fn all_sent(&mut self, alloc: Global)
        requires { is_on_of self.old.stage ≡ true }
        ensures { self.new ≡ flushed self.old }
    {
        self.editor.rests();
        self.sent_to = sent_then(&self.editor, self.stage, self.sent_to);
        self.editor.spoke();
        self.events = Seq::new(alloc);
    }

    /// The frames of all issued batches beyond the acknowledged clock, once more; none before the state is told. Out of
    /// memory changes nothing.
    pub fn resend(&mut self, alloc: Global) -> Result<Frames, NoMemory>
        ensures frames { IfOk result (λ fs. fs ≡ map client_text (resend_frames self.old)) }
        ensures ok { OnOk result (self.new ≡ resent self.old) }
        ensures err { OnErr result (self.new ≡ self.old) }
    {
        let mut frames = Seq::new(alloc);
        if !is_synced(self.stage) {
            return Ok(frames);
        }
        self.editor.rests();
        put_batches(alloc, &mut frames, &self.editor, 0)?;
        self.sent_to = self.editor.last_issued();
        Ok(frames)
    }
}
