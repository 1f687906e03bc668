//! Words that are numbers up to 2^64-1, or ids.
ghost use Rattle.std.specs.Prelude.{◌≡◌, ◌≤◌, IfOk, IfSome, true};
ghost use Rattle.std.specs.Str.{all_ascii_digits};
ghost use Rattle.std.specs.Str.Parse.{digits_value};
ghost use Rattle.room_ids.specs.Ids.{is_number, number_in, node_in};
ghost use Rattle.room_script.specs.Words.{at_most, number_from};
ghost use Rattle.room_script.specs.Giving.{Gives};

use crate::fault::Misread;
use room_ids::NodeId;

/// The number that decimal digits without a leading zero write, unless it is over `most`.
#[tactic(auto, unfolding(room_ids::specs::Ids::number_in))]
pub(crate) fn read_number(word: &[u8], most: u64) -> Result<u64, Misread>
    ensures value { Gives (λ n. n) result (number_in most word.now) }
    ensures bound { IfOk result (λ n. n ≤ most) }
{
    if is_numeral(word) {
        value_up_to(word, most).ok_or(Misread::Outside)
    } else {
        Err(Misread::Outside)
    }
}

/// The same, from a least number on.
pub(crate) fn read_number_from(word: &[u8], least: u64, most: u64) -> Result<u64, Misread>
    ensures value { Gives (λ n. n) result (number_from least most word.now) }
    ensures bound { IfOk result (λ n. n ≤ most) }
{
    let number = read_number(word, most)?;
    if number < least {
        return Err(Misread::Outside);
    }
    Ok(number)
}

/// The node that a word names.
pub(crate) fn read_node(word: &[u8]) -> Result<NodeId, Misread>
    ensures { Gives (λ x. x) result (node_in word.now) }
{
    NodeId::read(word).ok_or(Misread::Outside)
}

fn is_numeral(word: &[u8]) -> bool
    ensures { result ≡ is_number word.now }
{
    match word {
        [] => false,
        [first, behind @ ..] => are_digits(word) && !(*first == b'0' && !behind.is_empty()),
    }
}

fn are_digits(word: &[u8]) -> bool
    ensures { result ≡ all_ascii_digits word.now }
{
    for byte in word {
        if !byte.is_ascii_digit() {
            return false;
        }
    }
    true
}

/// The number that digits write, unless it is over `most`.
fn value_up_to(word: &[u8], most: u64) -> Option<u64>
    requires { all_ascii_digits word.now ≡ true }
    ensures bound { IfSome result (λ n. n ≤ most) }
    ensures value { result ≡ at_most most (digits_value 10 word.now) }
{
    let mut value: u64 = 0;
    for byte in word {
        let next = u128::from(value) * 10 + u128::from(byte.saturating_sub(b'0'));
        if next > u128::from(most) {
            return None;
        }
        value = next as u64;
    }
    Some(value)
}
