//! Keys of eight random bytes.
ghost use Rattle.std.specs.Prelude.{◌≡◌, ◌∷◌, [], IfOk, IfSome};
ghost use Rattle.std.specs.Io.KnownBytes.{Consumes};
ghost use Rattle.room_edge.specs.Causes.{HasCause};

use room_edge::{Failed, Source};

/// The next byte of a source, or none at its end.
fn next_byte<S: Source>(source: &mut S) -> Result<Option<u8>, Failed>
    ensures byte { IfOk result (λ found. IfSome found (λ b. Consumes (S.left source.old) (S.left source.new) (b ∷ []))) }
    ensures cause { HasCause (S.faults source.old) (S.faults source.new) result }
{
    let mut byte = [0u8; 1];
    if source.read(&mut byte)? == 0 {
        return Ok(None);
    }
    Ok(Some(byte[0]))
}

/// The next eight bytes of a source as a number, the first byte the highest; none where the source ends before.
pub(crate) fn next_key<S: Source>(source: &mut S) -> Result<Option<u64>, Failed>
    ensures cause { HasCause (S.faults source.old) (S.faults source.new) result }
{
    let mut key = 0u64;
    for _byte in 0..8 {
        let Some(byte) = next_byte(source)? else {
            return Ok(None);
        };
        key = key.wrapping_shl(8) | byte as u64;
    }
    Ok(Some(key))
}
