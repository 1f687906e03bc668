//! The key of a session as a text.
ghost use Rattle.std.specs.Prelude.{◌≡◌, ◌<◌, ◌++◌, [], ◌∷◌, OnOk, IfOk, length, true};
ghost use Rattle.std.specs.Str.Parse.{digits_value};
ghost use Rattle.room_msg.specs.Keys.{are_hex_digits, is_hex_digit, key_in, key_text, hex_digit, hex_digits};

use room_json::{NoMemory, Text};
use std::alloc::Global;

fn are_hex(t: &[u8]) -> bool
    ensures { result ≡ are_hex_digits t.now }
{
    for c in t {
        if !is_hex(*c) {
            return false;
        }
    }
    true
}

fn is_hex(c: u8) -> bool
    ensures { result ≡ is_hex_digit c }
{
    (c >= b'0' && c <= b'9') || (c >= b'a' && c <= b'f')
}

/// The key that a text of 16 lower-case hexadecimal digits spells.
#[tactic(auto, unfolding(crate::specs::Keys::key_in))]
pub(crate) fn read_key(text: &Text) -> Option<u64>
    ensures { result ≡ key_in text.now }
{
    if text.len() == 16 && are_hex(text.as_bytes()) {
        Some(value_of(text.as_str()))
    } else {
        None
    }
}

/// The number that 16 digits write.
fn value_of(digits: &str) -> u64
    requires length { length digits.now ≡ 16 }
    requires digits { are_hex_digits digits.now ≡ true }
    ensures { result ≡ digits_value 16 digits.now }
{
    match u64::from_str_radix(digits, 16) {
        Ok(key) => key,
        Err(_) => unreachable!(),
    }
}

/// The key as 16 lower-case hexadecimal digits.
#[tactic(auto, unfolding(crate::specs::Keys::key_text))]
pub(crate) fn write_key(alloc: Global, key: u64) -> Result<Text, NoMemory>
    ensures { IfOk result (λ t. t ≡ key_text key) }
{
    let mut text = Text::new(alloc);
    push_digits(&mut text, 16, key)?;
    Ok(text)
}

fn push_digits(text: &mut Text, places: u64, key: u64) -> Result<(), NoMemory>
    ensures { OnOk result (text.new ≡ text.old ++ hex_digits places key) }
{
    if places == 0 {
        return Ok(());
    }
    push_digits(text, places - 1, key / 16)?;
    text.push_str(digit(key % 16))
}

fn digit(value: u64) -> &'static str
    requires { value < 16 }
    ensures { result.now ≡ hex_digit value ∷ [] }
{
    match value {
        0 => "0",
        1 => "1",
        2 => "2",
        3 => "3",
        4 => "4",
        5 => "5",
        6 => "6",
        7 => "7",
        8 => "8",
        9 => "9",
        10 => "a",
        11 => "b",
        12 => "c",
        13 => "d",
        14 => "e",
        _ => "f",
    }
}
