//! Copies of values, lists and members.
ghost use Rattle.std.specs.Prelude.{◌≡◌, IfOk};
ghost use Rattle.room_json.specs.View.{members_view};

use crate::lists::Copied;
use crate::memory::NoMemory;
use crate::tree::{Items, Json, Members};
use crate::utf8::Text;
use std::alloc::Global;
use std::collections::BTreeMap;

impl Json {
    /// A copy of the value.
    #[cycle(copy)]
    pub fn copy(&self, alloc: Global) -> Result<Json, NoMemory>
        ensures { IfOk result (λ v. v ≡ self.now) }
    {
        match self {
            Json::Null => Ok(Json::Null),
            Json::Flag(b) => Ok(Json::Flag(*b)),
            Json::Int(w) => Ok(Json::Int(*w)),
            Json::Text(t) => Ok(Json::Text(t.copy(alloc)?)),
            Json::List(items) => Ok(Json::List(items.copy(alloc)?)),
            Json::Object(members) => Ok(Json::Object(members.copy(alloc)?)),
        }
    }
}

#[tactic(auto, using(crate::proofs::Views::views))]
impl Items {
    /// A copy of the list.
    #[cycle(copy)]
    pub fn copy(&self, alloc: Global) -> Result<Items, NoMemory>
        ensures { IfOk result (λ v. v ≡ self.now) }
    {
        let mut copies = Items::new(alloc);
        for item in &self.items {
            copies.push(item.copy(alloc)?)?;
        }
        Ok(copies)
    }
}

#[tactic(auto, using(crate::proofs::Views::views))]
impl Members {
    /// A copy of the members.
    #[cycle(copy)]
    pub fn copy(&self, alloc: Global) -> Result<Members, NoMemory>
        ensures { IfOk result (λ v. v ≡ self.now) }
    {
        copy_entries(alloc, &self.entries)
    }
}

#[cycle(copy)]
fn copy_entries(alloc: Global, entries: &BTreeMap<Text, Json>) -> Result<Members, NoMemory>
    ensures { IfOk result (λ v. v ≡ members_view entries.now.entries) }
{
    let mut copies = Members::new(alloc);
    for (name, item) in entries.iter() {
        let name = name.copy(alloc)?;
        drop(copies.set(name, item.copy(alloc)?)?);
    }
    Ok(copies)
}
