//! What is written of a store and of its answers.
use crate::broken::Broken;
use room_store::{Store, StoreFault};
use room_tree::{PlainTree, Tree};
use std::alloc::Global;

/// Why a call was not done.
pub(crate) fn fault_text(alloc: Global, fault: StoreFault) -> Result<String, Broken> {
    match fault {
        StoreFault::Memory => Err(Broken::Memory),
        _ => Ok(format!(in alloc; "{fault}")?),
    }
}

/// What a commit or a compaction answered.
pub(crate) fn told(alloc: Global, answer: Result<(), StoreFault>) -> Result<String, Broken> {
    match answer {
        Ok(()) => Ok(format!(in alloc; "ok")?),
        Err(fault) => fault_text(alloc, fault),
    }
}

/// What a store shows: how many updates and nodes, and the sessions with their last clocks, keys and names.
pub(crate) fn shown(alloc: Global, store: &Store<PlainTree>) -> Result<String, Broken> {
    let updates = store.count();
    let nodes = store.tree().count();
    let mut text = format!(in alloc; "updates {updates}, nodes {nodes}, sessions")?;
    for actor in 1..=store.sessions() {
        text.push_str(session(alloc, store, actor)?.as_str())?;
    }
    Ok(text)
}

fn session(alloc: Global, store: &Store<PlainTree>, actor: u32) -> Result<String, Broken> {
    let name = match store.name_of(actor) {
        Some(name) => name.as_str(),
        None => "",
    };
    let key = match store.key_of(actor) {
        Some(key) => key,
        None => 0,
    };
    Ok(format!(in alloc; " {}:{}:{}", store.last_of(actor), key, name)?)
}
