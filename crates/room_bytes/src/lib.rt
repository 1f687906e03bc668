//! The bytes of entries and groups, as the files of a room have them: one spelling for each value.
#![tactic(auto)]

mod entries;
mod fields;
mod laws;
mod misread;
mod numbers;
mod reading;
mod shallow;
mod writing;

pub use entries::{Entries, Entry, Format, Session, Sessions};
pub use fields::{fields_of, json_part};
pub use laws::{
    entries_are_spelled_once, entries_read_back, groups_are_spelled_once, groups_read_back,
};
pub use misread::Misread;
pub use numbers::{behind, byte_of, id_of, text_of, u32_of, u64_of};
pub use reading::{name_of, read_entry, read_group};
pub use shallow::is_shallow_kind;
pub use writing::{
    put_count, put_id, put_kind, put_name, put_text, put_u64, write_entry, write_group,
};
