//! What a word may be: not empty and with no hyphen in front; the form of numbers and of names.
ghost use Rattle.std.specs.Prelude.{◌≡◌, option_map, string_bytes};
ghost use Rattle.std.specs.List.{list_all};
ghost use Rattle.room_words.specs.Words.{digits_in, number_in, turns_in, count_in, within};
ghost use Rattle.room_words.specs.Words.{is_first, is_later, is_name, is_word, named};

/// A number of 64 bits without leading zeros.
pub(crate) fn number_in(bytes: &[u8]) -> Option<u64>
    ensures { result ≡ number_in bytes.now }
{
    match bytes {
        [] => None,
        [48] => Some(0),
        [48, ..] => None,
        _ => digits_in(bytes),
    }
}

fn digits_in(bytes: &[u8]) -> Option<u64>
    ensures { result ≡ digits_in 0 bytes.now }
{
    let mut number = 0u64;
    for byte in bytes {
        if *byte < 48 || *byte > 57 {
            return None;
        }
        let next = number as u128 * 10 + (*byte - 48) as u128;
        if next > u64::MAX as u128 {
            return None;
        }
        number = next as u64;
    }
    Some(number)
}

fn within(low: u64, high: u64, number: Option<u64>) -> Option<u64>
    ensures { result ≡ within low high number }
{
    match number {
        Some(number) if low <= number && number <= high => Some(number),
        _ => None,
    }
}

/// How many calls of the hub a server makes.
pub(crate) fn turns_in(bytes: &[u8]) -> Option<u64>
    ensures { result ≡ turns_in bytes.now }
{
    within(1, 1000000000000000000, number_in(bytes))
}

/// How many turns a made schedule has.
pub(crate) fn count_in(bytes: &[u8]) -> Option<u64>
    ensures { result ≡ count_in bytes.now }
{
    within(0, 10000, number_in(bytes))
}

fn is_first(byte: u8) -> bool
    ensures { result ≡ is_first byte }
{
    byte.is_ascii_lowercase() || byte.is_ascii_digit()
}

fn is_later(byte: u8) -> bool
    ensures { result ≡ is_later byte }
{
    is_first(byte) || byte == b'-' || byte == b'_'
}

fn are_later(bytes: &[u8]) -> bool
    ensures { result ≡ list_all is_later bytes.now }
{
    for byte in bytes {
        if !is_later(*byte) {
            return false;
        }
    }
    true
}

/// Whether it is a room's name: 1 to 64 of `a` to `z`, `0` to `9`, `-` and `_`, the first a letter or a digit.
fn is_name(bytes: &[u8]) -> bool
    ensures { result ≡ is_name bytes.now }
{
    match bytes {
        [] => false,
        [first, rest @ ..] => is_first(*first) && are_later(rest) && rest.len() < 64,
    }
}

/// The text, where it is a room's name.
pub(crate) fn named(text: &str) -> Option<&str>
    ensures { option_map (λ s. s.now) result ≡ named text.now }
{
    if is_name(text.as_bytes()) {
        Some(text)
    } else {
        None
    }
}

fn is_word(bytes: &[u8]) -> bool
    ensures { result ≡ is_word bytes.now }
{
    match bytes {
        [] => false,
        [first, ..] => *first != b'-',
    }
}

/// Whether no word is empty or begins with a hyphen.
pub(crate) fn are_words(words: &[String]) -> bool
    ensures { result ≡ list_all (λ w. is_word (string_bytes w)) words.now }
{
    words.iter().all(|word| is_word(word.as_bytes()))
}
