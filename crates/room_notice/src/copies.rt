//! Copies of notices and steps.
use crate::shapes::{Notice, Step};
use room_json::{Copied, NoMemory};
use std::alloc::Global;

impl Copied for Step {
    fn copy(&self, alloc: Global) -> Result<Step, NoMemory> {
        match self {
            Step::Key(key) => Ok(Step::Key(key.copy(alloc)?)),
            Step::Index(index) => Ok(Step::Index(*index)),
        }
    }
}

impl Copied for Notice {
    fn copy(&self, alloc: Global) -> Result<Notice, NoMemory> {
        match self {
            Notice::Fields { path, set, unset } => Ok(Notice::Fields {
                path: path.copy(alloc)?,
                set: set.copy(alloc)?,
                unset: unset.copy(alloc)?,
            }),
            Notice::Keys { path, set, unset } => Ok(Notice::Keys {
                path: path.copy(alloc)?,
                set: set.copy(alloc)?,
                unset: unset.copy(alloc)?,
            }),
            Notice::Insert { path, index, value } => Ok(Notice::Insert {
                path: path.copy(alloc)?,
                index: *index,
                value: value.copy(alloc)?,
            }),
            Notice::Take { path, index } => Ok(Notice::Take {
                path: path.copy(alloc)?,
                index: *index,
            }),
            Notice::Move { path, from, to } => Ok(Notice::Move {
                path: path.copy(alloc)?,
                from: *from,
                to: *to,
            }),
            Notice::Reset(view) => Ok(Notice::Reset(view.copy(alloc)?)),
        }
    }
}
