//! Connections that begin, and connections that end.
ghost use Rattle.std.specs.Prelude.{◌≡◌, ◌++◌, map, ℕ, OnOk, OnErr};
ghost use Rattle.std.specs.FinMap.{remove, get};
ghost use Rattle.room_links.specs.Outs.{written};
ghost use Rattle.room_model.specs.Server as model;
ghost use Rattle.room_store.specs.Stored.{Stored};
ghost use Rattle.room_arrivals.specs.Serving.{Answers};
ghost use Rattle.room_arrivals.specs.Seats.{AreSeated};

use crate::draft::{Draft, Setting};
use crate::texts::bad_frame_text;
use room_json::{NoMemory, Text};
use room_links::{Link, Links, Out, Outs, Whom};
use room_msg::{Reason, ServerMsg};
use std::alloc::Global;

/// The others are told that a session left, if there was one.
fn tell_left(
    alloc: Global,
    links: &Links,
    outs: &mut Outs,
    conn: u64,
    actor: Option<u32>,
) -> Result<(), NoMemory>
    ensures { OnOk result (outs.new ≡ outs.old ++ map written (model.left_to links.now conn actor)) }
{
    match actor {
        Some(actor) => links.say(alloc, outs, Whom::Others(conn), &ServerMsg::Left(actor)),
        None => Ok(()),
    }
}

/// A connection is closed, and is detached. If it had a session, the others are told after it.
#[tactic(auto, using(crate::proofs::Seating::seats))]
pub fn shut(
    alloc: Global,
    draft: &mut Draft,
    conn: u64,
    link: &Link,
    code: u16,
    text: Text,
) -> Result<(), NoMemory>
    ensures answers { (s : Stored) (setting : Setting)
        → OnOk result (Answers setting s draft.old draft.new (λ v. model.shut v conn link.now code text)) }
    ensures seated { (n : ℕ) → AreSeated n draft.old.links → OnOk result (AreSeated n draft.new.links) }
    ensures group { draft.new.group ≡ draft.old.group }
{
    draft.outs.push(Out::Close(conn, code, text))?;
    tell_left(alloc, &draft.links, &mut draft.outs, conn, link.actor())?;
    draft.links.remove(conn);
    Ok(())
}

/// A frame is bad: its connection is closed.
pub fn bad_frame(
    alloc: Global,
    draft: &mut Draft,
    conn: u64,
    link: &Link,
    reason: &Reason,
) -> Result<(), NoMemory>
    ensures answers { (s : Stored) (setting : Setting)
        → OnOk result (Answers setting s draft.old draft.new (λ v. model.bad_frame v conn link.now reason.now)) }
    ensures seated { (n : ℕ) → AreSeated n draft.old.links → OnOk result (AreSeated n draft.new.links) }
    ensures group { draft.new.group ≡ draft.old.group }
{
    let text = bad_frame_text(alloc, reason)?;
    shut(alloc, draft, conn, link, 4400, text)
}

/// A connection is gone, if it was attached. If it had a session, the others are told. A refused call leaves the
/// connections as they were.
#[tactic(auto, using(crate::proofs::Seating::seats))]
pub fn gone(alloc: Global, links: &mut Links, outs: &mut Outs, conn: u64) -> Result<(), NoMemory>
    ensures links { (v : model.Server) → v.links ≡ links.old
        → OnOk result (model.with_links v links.new ≡ (model.gone v conn).server) }
    ensures outs { (v : model.Server) → v.links ≡ links.old
        → OnOk result (outs.new ≡ outs.old ++ map written (model.gone v conn).outs) }
    ensures seated { (n : ℕ) → AreSeated n links.old → OnOk result (AreSeated n links.new) }
    ensures err { OnErr result (links.new ≡ links.old) }
{
    let Some(link) = links.get(conn) else {
        return Ok(());
    };
    let actor = link.actor();
    tell_left(alloc, links, outs, conn, actor)?;
    links.remove(conn);
    Ok(())
}

/// A new connection is attached with its key; a number that is attached stays as it is. A refused call changes nothing.
#[tactic(auto, using(crate::proofs::Seating::seats))]
pub fn opened(links: &mut Links, conn: u64, key: u64) -> Result<(), NoMemory>
    ensures links { (v : model.Server) → v.links ≡ links.old
        → OnOk result (model.with_links v links.new ≡ model.opened v conn key) }
    ensures seated { (n : ℕ) → AreSeated n links.old → OnOk result (AreSeated n links.new) }
    ensures err { OnErr result (links.new ≡ links.old) }
{
    if links.get(conn).is_some() {
        return Ok(());
    }
    links.set(conn, Link::new(key))
}
