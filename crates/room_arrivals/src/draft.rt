//! What an arrival is worked out on.
use room_access::Access;
use room_json::Text;
use room_links::{Links, Outs};
use room_store::Group;

/// The room's name, and who may do what in it, where that is asked for.
#[derive(Drop)]
pub struct Setting {
    pub room: Text,
    pub access: Option<Access>,
}

/// The attached connections after the arrivals so far, what goes out for them, and the group of their entries.
#[derive(Drop)]
pub struct Draft {
    pub links: Links,
    pub outs: Outs,
    pub group: Group,
}
