//! The users of a room: the actors of the attached connections, with their names.
ghost use Rattle.std.specs.Prelude.{◌≡◌, ◌∷◌, ℕ, List, IfOk, OnOk};
ghost use Rattle.std.specs.FinMap.{entries, remove};
ghost use Rattle.room_msg.specs.Users.{IsRising};
ghost use Rattle.room_model.specs.Server as model;
ghost use Rattle.room_arrivals.specs.Names.{users_from, name_at, as_named};

use room_json::{Copied, NoMemory, Text};
use room_links::{Link, Links};
use room_msg::Users;
use room_store::Store;
use room_tree::Tree;
use std::alloc::Global;
use std::collections::BTreeMap;

/// The name of an actor, empty where it has no session.
fn name_of<T: Tree>(alloc: Global, store: &Store<T>, actor: u32) -> Result<Text, NoMemory>
    ensures { IfOk result (λ t. t ≡ name_at store.now.state.sessions actor) }
{
    match store.name_of(actor) {
        Some(name) => name.copy(alloc),
        None => Ok(Text::new(alloc)),
    }
}

/// Puts a connection's actor with its name among the others, but of one connection.
#[tactic(auto, using(crate::proofs::Naming::names))]
fn put_name<T: Tree>(
    alloc: Global,
    store: &Store<T>,
    names: &mut BTreeMap<u32, Text>,
    conn: u64,
    number: u64,
    link: &Link,
) -> Result<(), NoMemory>
    ensures { (es : List (ℕ × model.Link))
        → as_named names.old.entries ≡ as_named (users_from store.now.state.sessions conn es)
        → OnOk result (as_named names.new.entries
        ≡ as_named (users_from store.now.state.sessions conn ((number, link.now) ∷ es))) }
{
    if number == conn {
        return Ok(());
    }
    let Some(actor) = link.actor() else {
        return Ok(());
    };
    let name = name_of(alloc, store, actor)?;
    names.insert(actor, name)?;
    Ok(())
}

/// The actors of the connections but one, with their names, by actor.
#[tactic(auto, using(crate::proofs::Naming::places))]
fn names<T: Tree>(
    alloc: Global,
    store: &Store<T>,
    links: &Links,
    conn: u64,
) -> Result<BTreeMap<u32, Text>, NoMemory>
    ensures { IfOk result (λ m. as_named m.entries
        ≡ as_named (users_from store.now.state.sessions conn (entries links.now))) }
{
    let mut names = BTreeMap::new(alloc);
    let mut place = links.len();
    while place > 0 {
        place -= 1;
        if let Some((number, link)) = links.at(place) {
            put_name(alloc, store, &mut names, conn, *number, link)?;
        }
    }
    Ok(names)
}

fn listed(alloc: Global, names: &BTreeMap<u32, Text>) -> Result<Users, NoMemory>
    ensures { IfOk result (λ u. u ≡ names.now.entries) }
{
    let mut users = Users::new(alloc);
    for (actor, name) in names.iter() {
        users.push(*actor, name.copy(alloc)?)?;
    }
    Ok(users)
}

/// The actors of the connections but one, with their names, in rising order of the actors.
#[tactic(auto, using(crate::proofs::Naming::listing))]
pub fn users<T: Tree>(
    alloc: Global,
    store: &Store<T>,
    links: &Links,
    conn: u64,
) -> Result<Users, NoMemory>
    ensures users { IfOk result (λ u. u ≡ model.users_of store.now.state.sessions (remove links.now conn)) }
    ensures rising { IfOk result IsRising }
{
    let names = names(alloc, store, links, conn)?;
    listed(alloc, &names)
}
