//! Copies of live values.
ghost use Rattle.std.specs.Prelude.{◌≡◌, IfOk};
ghost use Rattle.room_props.specs.Inits.{named};

use crate::live::{Init, Inits, Parts};
use room_json::{Copied, NoMemory, Text};
use std::alloc::Global;
use std::collections::BTreeMap;

impl Init {
    /// A copy of the live value.
    #[cycle(copy)]
    pub fn copy(&self, alloc: Global) -> Result<Init, NoMemory>
        ensures { IfOk result (λ i. i ≡ self.now) }
    {
        match self {
            Init::Plain(value) => Ok(Init::Plain(value.copy(alloc)?)),
            Init::Object(parts) => Ok(Init::Object(parts.copy(alloc)?)),
            Init::Map(parts) => Ok(Init::Map(parts.copy(alloc)?)),
            Init::List(items) => Ok(Init::List(items.copy(alloc)?)),
        }
    }
}

#[tactic(auto, using(crate::proofs::Views::views))]
impl Inits {
    /// A copy of the list.
    #[cycle(copy)]
    pub fn copy(&self, alloc: Global) -> Result<Inits, NoMemory>
        ensures { IfOk result (λ is. is ≡ self.now) }
    {
        let mut copies = Inits::new(alloc);
        for item in &self.items {
            copies.push(item.copy(alloc)?)?;
        }
        Ok(copies)
    }
}

#[tactic(auto, using(crate::proofs::Views::views))]
impl Parts {
    /// A copy of the parts.
    #[cycle(copy)]
    pub fn copy(&self, alloc: Global) -> Result<Parts, NoMemory>
        ensures { IfOk result (λ ps. ps ≡ self.now) }
    {
        copy_entries(alloc, &self.entries)
    }
}

#[cycle(copy)]
fn copy_entries(alloc: Global, entries: &BTreeMap<Text, Init>) -> Result<Parts, NoMemory>
    ensures { IfOk result (λ ps. ps ≡ named entries.now.entries) }
{
    let mut copies = Parts::new(alloc);
    for (name, part) in entries.iter() {
        let name = name.copy(alloc)?;
        drop(copies.set(name, part.copy(alloc)?)?);
    }
    Ok(copies)
}
