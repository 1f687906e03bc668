//! Texts as they are shown.
use crate::broken::Broken;
use room_client::Frames;
use room_json::Text;
use room_notice::{Notices, write_notices};
use std::alloc::Global;

/// The most bytes of a text that is shown whole.
const MOST: u64 = 600;

/// The bytes as digits of base 31, modulo 2^32.
fn sum(bytes: &[u8]) -> u32 {
    let mut sum = 0u32;
    for byte in bytes {
        sum = sum.wrapping_mul(31).wrapping_add(*byte as u32);
    }
    sum
}

/// A text; of a long one how long it is, and the sum of its bytes.
pub(crate) fn shown(alloc: Global, text: &Text) -> Result<String, Broken> {
    let length = text.len();
    if length > MOST {
        let sum = sum(text.as_bytes());
        return Ok(format!(in alloc; "{length} bytes, sum {sum}")?);
    }
    Ok(format!(in alloc; "{}", text.as_str())?)
}

/// Frames, one behind the other, or that there is none.
pub(crate) fn all_shown(alloc: Global, frames: &Frames) -> Result<String, Broken> {
    let mut all = String::new(alloc);
    for frame in frames.as_slice() {
        if !all.is_empty() {
            all.push_str(" then ")?;
        }
        all.push_str(shown(alloc, frame)?.as_str())?;
    }
    if all.is_empty() {
        all.push_str("none")?;
    }
    Ok(all)
}

/// Notices, as they are written.
pub(crate) fn told(alloc: Global, notices: &Notices) -> Result<String, Broken> {
    shown(alloc, &write_notices(alloc, notices)?)
}
