//! How long a position between two others is, without making it.
ghost use Rattle.std.specs.Prelude.{◌≡◌, ◌+◌, ◌≤◌, length, nat_le};
ghost use Rattle.std.specs.Option.{option_copied};
ghost use Rattle.room_ids.specs.Position.{above, amid, between};

use room_json::Text;

/// Of a position above x.
fn length_above(x: &[u8]) -> u64
    ensures length { result ≡ length (above x.now) }
    ensures bound { result ≤ length x.now + 1 }
{
    let mut count = 1;
    for a in x {
        if *a < 125 {
            return count;
        }
        count += 1;
    }
    count
}

/// Of a position between x and y.
fn length_amid(x: &[u8], y: &[u8]) -> u64
    requires { length x.now ≤ 4096 }
    ensures { result ≡ length (amid x.now y.now) }
{
    let mut left = x;
    let mut count = 0;
    for b in y {
        let (a, behind) = match left {
            [a, behind @ ..] => (*a, behind),
            [] => (32, left),
        };
        if a != *b {
            if a.saturating_add(1) != *b {
                return count + 1;
            }
            return count + 1 + length_above(behind);
        }
        count += 1;
        left = behind;
    }
    count + length_above(left)
}

/// Whether a position between two others is none too long.
pub(crate) fn fits_between(x: &Text, y: Option<&Text>) -> bool
    requires { length x.now ≤ 4096 }
    ensures { result ≡ nat_le (length (between x.now (option_copied y.entry))) 4096 }
{
    match y {
        Some(y) => length_amid(x.as_bytes(), y.as_bytes()) <= 4096,
        None => length_above(x.as_bytes()) <= 4096,
    }
}
