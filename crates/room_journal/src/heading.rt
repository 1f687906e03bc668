//! The first bytes of a file: its gate, its mark, its generation.
ghost use Rattle.std.specs.Prelude.{◌≡◌, ◌≤◌, ◌+◌, ℕ, length};
ghost use Rattle.room_journal.specs.Files.{number_at, heading, is_open, format_of, generation_in, mark_of};
ghost use Rattle.room_bytes.specs.declared.entries.Format.TheVariants.{One, Two};

use room_bytes::Format;

/// `LBROOM01`, as a number whose highest byte stands first.
const MARK_ONE: u64 = 5495044995931779121;

/// `LBROOM02`.
pub const MARK_TWO: u64 = 5495044995931779122;

/// What the first bytes of a file say: a closed file, one whose mark or generation is wrong, or a format and a
/// generation.
#[derive(Clone, Copy, Debug, PartialEq, Eq)]
pub enum Heading {
    Shut,
    Wrong,
    Opened(Format, u64),
}

/// The eight bytes from there on as a number, the highest first.
pub fn number_at(bytes: &[u8], at: usize) -> u64
    requires { at + 8 ≤ length bytes.now }
    ensures { result ≡ number_at at bytes.now }
{
    let mut eight = [0u8; 8];
    eight.copy_from_slice(&bytes[at..at + 8]);
    u64::from_be_bytes(eight)
}

fn is_open(bytes: &[u8]) -> bool
    ensures { result ≡ is_open bytes.now }
{
    match bytes {
        [gate, _, ..] => *gate != 0,
        _ => false,
    }
}

fn format_of(mark: u64) -> Option<Format>
    ensures { result ≡ format_of mark }
{
    if mark == MARK_TWO {
        return Some(Format::Two);
    }
    if mark == MARK_ONE {
        return Some(Format::One);
    }
    None
}

fn generation_in(format: Option<Format>, generation: u64) -> Heading
    ensures { result ≡ generation_in format generation }
{
    match format {
        None => Heading::Wrong,
        Some(Format::Two) => {
            if generation == 0 {
                return Heading::Wrong;
            }
            Heading::Opened(Format::Two, generation)
        }
        Some(Format::One) => {
            if generation == 0 || generation == u64::MAX {
                return Heading::Wrong;
            }
            Heading::Opened(Format::One, generation)
        }
    }
}

/// What the first bytes of a file say.
pub fn head_of(bytes: &[u8]) -> Heading
    ensures { result ≡ heading bytes.now }
{
    if !is_open(bytes) {
        return Heading::Shut;
    }
    if bytes.len() < 17 {
        return Heading::Wrong;
    }
    generation_in(format_of(number_at(bytes, 1)), number_at(bytes, 9))
}
