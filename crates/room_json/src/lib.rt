//! JSON whose numbers are whole and at most 2^53-1 in amount. Contracts see texts, lists and objects as lists.
#![tactic(auto)]

mod access;
mod copying;
mod forms;
mod item_list;
mod laws;
mod lists;
mod member_map;
mod memory;
mod merging;
mod numbers;
mod objects;
mod parse;
mod reading;
mod sending;
mod sound;
mod tree;
mod utf8;

pub use forms::{depth, write};
pub use laws::texts_spell;
pub use lists::{Bytes, Copied, Names, Seq};
pub use memory::NoMemory;
pub use merging::merge;
pub use numbers::{MAX_WHOLE, Whole};
pub use objects::{field, put, whole, whole_u64};
pub use parse::{MAX_DEPTH, read};
pub use reading::JsonFault;
pub use sound::Sound;
pub use tree::{Items, Json, Members};
pub use utf8::{Text, TextFault};
