//! What a command wants of the outside.
use room_json::Text;

/// What a command wants of the outside.
#[derive(Drop)]
pub struct Wants {
    /// The folder of its files.
    pub folder: Option<Text>,
    /// The address that it serves or dials.
    pub address: Option<Text>,
    /// Whether it serves.
    pub serves: bool,
    /// The file of its table of rooms.
    pub table: Option<Text>,
}
