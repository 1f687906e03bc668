//! Names of presence keys, in byte order.
ghost use Rattle.std.specs.Prelude.{◌≡◌, ◌≤◌, length, false, IfOk, OnOk, IfSome, None};
ghost use Rattle.std.specs.List.{insert};
ghost use Rattle.room_json.specs.View.{members_view};
ghost use Rattle.room_model.specs.Presence.{is_among as is_among_of, kept_names, with_name};
ghost use Rattle.room_model.specs.Presence.{with_names as with_names_of};

use room_json::{Copied, Json, Members, Names, NoMemory, Text};
use std::alloc::Global;
use std::cmp::Ordering;
use std::collections::BTreeMap;

/// Where a name goes among names, None where it is there.
fn place(names: &[Text], name: &Text) -> Option<usize>
    ensures at { IfSome result (λ i. (i ≤ length names.now)
        × (insert names.now i name.now ≡ with_name names.now name.now)) }
    ensures there { result ≡ None → with_name names.now name.now ≡ names.now }
{
    let mut at = 0;
    for known in names {
        match name.cmp(known) {
            Ordering::Less => return Some(at),
            Ordering::Equal => return None,
            Ordering::Greater => at += 1,
        }
    }
    Some(at)
}

/// Puts a name among names, once.
fn add_name(names: &mut Names, name: Text) -> Result<(), NoMemory>
    ensures { OnOk result (names.new ≡ with_name names.old name) }
{
    match place(names.as_slice(), &name) {
        Some(at) => names.insert(at, name),
        None => Ok(()),
    }
}

fn add_all(alloc: Global, names: Names, patch: &BTreeMap<Text, Json>) -> Result<Names, NoMemory>
    ensures { IfOk result (λ ns. ns ≡ with_names_of names (members_view patch.now.entries)) }
{
    let mut names = names;
    for (name, _value) in patch.iter() {
        add_name(&mut names, name.copy(alloc)?)?;
    }
    Ok(names)
}

/// Copies of names.
pub(crate) fn copies(alloc: Global, names: &[Text]) -> Result<Names, NoMemory>
    ensures { IfOk result (λ ns. ns ≡ names.now) }
{
    let mut all = Names::new(alloc);
    for name in names {
        all.push(name.copy(alloc)?)?;
    }
    Ok(all)
}

/// Names, and those of a patch.
pub(crate) fn with_names(alloc: Global, names: &[Text], patch: &Members) -> Result<Names, NoMemory>
    ensures { IfOk result (λ ns. ns ≡ with_names_of names.now patch.now) }
{
    let names = copies(alloc, names)?;
    add_all(alloc, names, patch.as_map())
}

/// Whether a name is among names.
pub(crate) fn is_among(name: &Text, names: &[Text]) -> bool
    ensures { result ≡ is_among_of name.now names.now }
{
    for known in names {
        if name.cmp(known) == Ordering::Equal {
            return true;
        }
    }
    false
}

/// Lets the names go that aren't among others.
pub(crate) fn keep_among(names: &mut Vec<Text>, among: &[Text])
    ensures { names.new.items ≡ kept_names names.old.items among.now }
{
    let mut at = 0;
    while at < names.len() {
        if is_among(&names[at], among) {
            at += 1;
        } else {
            drop(names.remove(at));
        }
    }
}
