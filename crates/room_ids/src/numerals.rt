//! Numbers in decimal digits.
ghost use Rattle.std.specs.Prelude.{◌≡◌, ◌≤◌, ◌++◌, OnOk, OnErr, IfSome, Some, None, true, if◌then◌else◌, nat_le};
ghost use Rattle.std.specs.Fmt.{decimal};
ghost use Rattle.std.specs.Str.{all_ascii_digits};
ghost use Rattle.std.specs.Str.Parse.{digits_value};
ghost use Rattle.room_json.specs.Limits.{max_whole};
ghost use Rattle.room_ids.specs.Ids.{is_number, number_in};

use room_json::{NoMemory, Text};
use std::alloc::Global;

/// Digits, of which the first is no zero unless it stands alone.
fn is_numeral(t: &[u8]) -> bool
    ensures { result ≡ is_number t.now }
{
    match t {
        [] => false,
        [first, behind @ ..] => are_digits(t) && !(*first == b'0' && !behind.is_empty()),
    }
}

fn are_digits(t: &[u8]) -> bool
    ensures { result ≡ all_ascii_digits t.now }
{
    for c in t {
        if !c.is_ascii_digit() {
            return false;
        }
    }
    true
}

/// The number that decimal digits without a leading zero write, unless it is over `most`.
#[tactic(auto, unfolding(crate::specs::Ids::number_in))]
pub fn read_number(t: &[u8], most: u64) -> Option<u64>
    requires { most ≤ max_whole }
    ensures value { result ≡ number_in most t.now }
    ensures bound { IfSome result (λ n. n ≤ most) }
{
    if is_numeral(t) {
        value_up_to(t, most)
    } else {
        None
    }
}

/// The number that digits write, unless it is over `most`.
fn value_up_to(t: &[u8], most: u64) -> Option<u64>
    requires digits { all_ascii_digits t.now ≡ true }
    requires small { most ≤ max_whole }
    ensures bound { IfSome result (λ n. n ≤ most) }
    ensures value { result ≡ (if nat_le (digits_value 10 t.now) most then Some (digits_value 10 t.now) else None) }
{
    let mut value: u64 = 0;
    for c in t {
        value = value * 10 + u64::from(c.saturating_sub(b'0'));
        if value > most {
            return None;
        }
    }
    Some(value)
}

/// Writes a number in decimal digits behind a text. A refused call changes nothing.
pub fn push_number(alloc: Global, text: &mut Text, number: u64) -> Result<(), NoMemory>
    ensures ok { OnOk result (text.new ≡ text.old ++ decimal number) }
    ensures err { OnErr result (text.new ≡ text.old) }
{
    let digits = number.to_string(alloc)?;
    text.push_str(digits.as_str())
}
