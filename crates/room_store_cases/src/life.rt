//! The life of a store: it is recovered, and then does some steps.
ghost use Rattle.std.specs.Prelude.{◌≡◌, None, IfOk};
ghost use Rattle.room_nodes.specs.Shallow.{AreShallowOps};
ghost use Rattle.room_store.specs.Stored.{IsOpen};

use crate::args::{cut, number, small};
use crate::broken::Broken;
use crate::making::{makes, removes};
use crate::telling::{fault_text, shown, told};
use room_case_disk::CaseDisk;
use room_json::Text;
use room_nodes::Ops;
use room_store::{Group, Limits, Store, Taken};
use room_tree::{PlainTree, Tree};
use std::alloc::Global;

/// How many updates and sessions a room of a case may have.
const LIMITS: Limits = Limits {
    updates: 6,
    sessions: 3,
};

fn join(
    alloc: Global,
    store: &mut Store<PlainTree>,
    group: &mut Group,
    words: &str,
) -> Result<String, Broken>
    requires { IsOpen store.old group.old }
    ensures { IsOpen store.new group.new }
{
    let (key, name) = cut(words, ':');
    let key = number(key)?;
    let name = Text::from_str(alloc, name)?;
    match store.plan_join(alloc, group, key, &name) {
        Ok(actor) => Ok(format!(in alloc; "actor {actor}")?),
        Err(fault) => fault_text(alloc, fault),
    }
}

/// Plans operations of an actor.
fn plan(
    alloc: Global,
    store: &mut Store<PlainTree>,
    group: &mut Group,
    actor: u32,
    ops: &Ops,
) -> Result<String, Broken>
    requires open { IsOpen store.old group.old }
    requires shallow { AreShallowOps ops.now }
    ensures { IsOpen store.new group.new }
{
    if store.key_of(actor).is_none() {
        return Ok(format!(in alloc; "no session")?);
    }
    match store.plan(alloc, group, actor, ops) {
        Ok(Taken::Nothing) => Ok(format!(in alloc; "nothing")?),
        Ok(Taken::Update { seq, ops }) => Ok(format!(in alloc; "{seq} of {}", ops.len())?),
        Err(fault) => fault_text(alloc, fault),
    }
}

/// The operations that a step plans, and their actor.
fn planned(alloc: Global, verb: &str, words: &str) -> Result<(u32, Ops), Broken>
    ensures { IfOk result (λ p. AreShallowOps p.1) }
{
    let (actor, rest) = cut(words, ':');
    let (clock, node) = cut(rest, ':');
    let actor = small(actor)?;
    let clock = number(clock)?;
    let ops = match verb {
        "make" => makes(alloc, actor, clock)?,
        "remove" => removes(alloc, actor, clock, number(node)?)?,
        _ => return Err(Broken::Verb),
    };
    Ok((actor, ops))
}

/// Puts the group that is open on the disk.
fn commit(
    alloc: Global,
    disk: &mut CaseDisk,
    store: &mut Store<PlainTree>,
    group: &mut Group,
) -> Result<String, Broken>
    requires { IsOpen store.old group.old }
    ensures { IsOpen store.new group.new }
{
    let whole = std::mem::replace(group, Group::new(alloc));
    let answer = store.commit(disk, whole);
    told(alloc, answer)
}

/// Gives up the group that is open.
fn give_up(alloc: Global, store: &mut Store<PlainTree>, group: &mut Group)
    requires { IsOpen store.old group.old }
    ensures open { IsOpen store.new group.new }
    ensures closed { store.new.before ≡ None }
{
    let whole = std::mem::replace(group, Group::new(alloc));
    store.drop_group(whole);
}

/// A step that begins a group anew, or shows the store.
fn end(
    alloc: Global,
    disk: &mut CaseDisk,
    store: &mut Store<PlainTree>,
    group: &mut Group,
    verb: &str,
) -> Result<String, Broken>
    requires { IsOpen store.old group.old }
    ensures { IsOpen store.new group.new }
{
    match verb {
        "commit" => commit(alloc, disk, store, group),
        "drop" => {
            give_up(alloc, store, group);
            Ok(format!(in alloc; "ok")?)
        },
        "compact" => {
            give_up(alloc, store, group);
            let answer = store.compact(alloc, disk);
            told(alloc, answer)
        },
        "show" => shown(alloc, &*store),
        _ => Err(Broken::Verb),
    }
}

/// Does a step, and answers what came of it.
fn step(
    alloc: Global,
    disk: &mut CaseDisk,
    store: &mut Store<PlainTree>,
    group: &mut Group,
    word: &str,
) -> Result<String, Broken>
    requires { IsOpen store.old group.old }
    ensures { IsOpen store.new group.new }
{
    let (verb, words) = cut(word, ':');
    if words.is_empty() {
        return end(alloc, disk, store, group, verb);
    }
    if verb == "join" {
        return join(alloc, store, group, words);
    }
    let (actor, ops) = planned(alloc, verb, words)?;
    plan(alloc, store, group, actor, &ops)
}

/// The steps of a store without a group that is open.
fn steps(
    alloc: Global,
    disk: &mut CaseDisk,
    store: &mut Store<PlainTree>,
    words: &str,
) -> Result<String, Broken>
    requires { store.old.before ≡ None }
{
    let mut group = Group::new(alloc);
    let mut text = String::new(alloc);
    for word in words.split_whitespace() {
        let one = step(alloc, disk, store, &mut group, word)?;
        if !text.is_empty() {
            text.push_str(" / ")?;
        }
        text.push_str(one.as_str())?;
    }
    Ok(text)
}

/// Recovers a store, does the steps, and answers what came of each.
pub(crate) fn live(alloc: Global, disk: &mut CaseDisk, words: &str) -> Result<String, Broken> {
    let empty = PlainTree::empty(alloc)?;
    match Store::recover(alloc, disk, 0, empty, LIMITS) {
        Err(fault) => fault_text(alloc, fault),
        Ok(recovered) => {
            let mut store = recovered;
            steps(alloc, disk, &mut store, words)
        },
    }
}
