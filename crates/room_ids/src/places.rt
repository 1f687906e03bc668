//! Positions in lists.
ghost use Rattle.std.specs.Prelude.{◌≡◌, ◌↔◌, Some, None, IfOk, IfErr, IfSome, IsSome, true};
ghost use Rattle.std.specs.Ordering.{nat_cmp};
ghost use Rattle.std.specs.Cmp.Lexicographic.{slice_cmp};
ghost use Rattle.std.specs.Option.{option_copied};
ghost use Rattle.room_ids.specs.Position.{IsBelow, is_pos, is_some_text, is_spelled, SaysHowLong};
ghost use Rattle.room_ids.specs.Position.{first as first_of, after as after_of, before as before_of};
ghost use Rattle.room_ids.specs.Position.{between as between_of};

use crate::makers::{push_above, push_after, push_amid, push_before};
use room_json::{Copied, NoMemory, Text};
use std::alloc::Global;
use std::cmp::Ordering;
use std::error::Error;
use std::fmt;
use std::marker::Model;

/// How many bytes a position has at most.
pub const MAX_POSITION: usize = 4096;

/// A position among the children of a list: a text of 1 to 4,096 bytes, each from 32 to 126, of which the last is no
/// space.
#[derive(Drop)]
pub struct Pos {
    text: Text,
}

impl Model for Pos {
    ghost use Rattle.std.specs.Prelude.{List, ℕ, ◌≡◌, true};
    ghost use Rattle.room_ids.specs.Position.{is_pos as is_position};

    ghost Value = { List ℕ };

    ghost view = { λ p. p.text };

    ghost invariant = { λ p. is_position p.text ≡ true };
}

/// Why no position was made.
#[derive(Clone, Copy, Debug, PartialEq, Eq)]
pub enum PosFault {
    /// Out of memory.
    Memory,
    /// The made text has so many bytes, over 4,096.
    TooLong(u64),
}

impl fmt::Display for PosFault {
    fn fmt<W: fmt::Write>(&self, f: &mut fmt::Formatter<W>) -> fmt::Result {
        match self {
            PosFault::Memory => f.write_str("out of memory"),
            PosFault::TooLong(bytes) => write!(f, "position too long ({bytes} bytes)"),
        }
    }
}

impl Error for PosFault {}

impl From<NoMemory> for PosFault {
    ghost use Rattle.std.specs.Prelude.{◌≡◌};
    ghost use Rattle.room_ids.specs.declared.places.PosFault.TheVariants.{Memory};

    ghost from_gives = { λ _ e. e ≡ Memory };

    fn from(_error: NoMemory) -> PosFault {
        PosFault::Memory
    }
}

/// Whether the bytes are a position.
pub fn is_position(t: &[u8]) -> bool
    ensures { result ≡ is_pos t.now }
{
    !t.is_empty() && t.len() <= MAX_POSITION && are_spelled(t)
}

fn are_spelled(t: &[u8]) -> bool
    ensures { result ≡ is_spelled t.now }
{
    let mut rest = t;
    while let [c, behind @ ..] = rest {
        if *c < 32 || *c > 126 || (*c == 32 && behind.is_empty()) {
            return false;
        }
        rest = behind;
    }
    true
}

impl Pos {
    /// Whether the bytes are a position.
    pub fn is_pos(t: &[u8]) -> bool
        ensures { result ≡ is_pos t.now }
    {
        is_position(t)
    }

    /// The position that a text is.
    pub fn read(alloc: Global, t: &Text) -> Result<Option<Pos>, NoMemory>
        ensures exact { IfOk result (λ p. IsSome p ↔ (is_pos t.now ≡ true)) }
        ensures value { IfOk result (λ p. IfSome p (λ x. x ≡ t.now)) }
    {
        if !is_position(t.as_bytes()) {
            return Ok(None);
        }
        let text = t.copy(alloc)?;
        Ok(Some(Pos { text }))
    }

    /// The text of the position.
    pub fn text(&self) -> &Text
        ensures text { result.now ≡ self.now }
        ensures position { is_pos self.now ≡ true }
    {
        &self.text
    }
}

impl Copied for Pos {
    fn copy(&self, alloc: Global) -> Result<Pos, NoMemory> {
        let text = self.text.copy(alloc)?;
        Ok(Pos { text })
    }
}

/// The byte order.
pub fn compare_places(a: &Pos, b: &Pos) -> Ordering
    ensures { result ≡ slice_cmp nat_cmp a.now b.now }
{
    a.text.cmp(&b.text)
}

/// The position that a made text is, unless it is too long.
fn position(alloc: Global, made: &[u8]) -> Result<Pos, PosFault>
    requires { (is_some_text made.now ≡ true) × (is_spelled made.now ≡ true) }
    ensures ok { IfOk result (λ p. p ≡ made.now) }
    ensures err { IfErr result (SaysHowLong made.now) }
{
    if made.len() > MAX_POSITION {
        return Err(PosFault::TooLong(made.len() as u64));
    }
    let text = text_of(alloc, made)?;
    Ok(Pos { text })
}

/// The text of characters, which are all ASCII.
fn text_of(alloc: Global, made: &[u8]) -> Result<Text, NoMemory>
    requires { is_spelled made.now ≡ true }
    ensures { IfOk result (λ t. t ≡ made.now) }
{
    match str::from_utf8(made) {
        Ok(text) => Text::from_str(alloc, text),
        Err(_) => unreachable!(),
    }
}

/// The first position of a list: `!`.
pub fn first(alloc: Global) -> Result<Pos, NoMemory>
    ensures { IfOk result (λ p. p ≡ first_of) }
{
    let text = Text::from_str(alloc, "!")?;
    Ok(Pos { text })
}

fn bytes_after(alloc: Global, x: &[u8]) -> Result<Vec<u8>, NoMemory>
    ensures { IfOk result (λ v. v.items ≡ after_of x.now) }
{
    let mut made = Vec::new(alloc);
    push_after(&mut made, x)?;
    Ok(made)
}

/// A position after x.
pub fn after(alloc: Global, x: &Pos) -> Result<Pos, PosFault>
    ensures ok { IfOk result (λ p. p ≡ after_of x.now) }
    ensures position { IfOk result (λ p. is_pos p ≡ true) }
    ensures err { IfErr result (SaysHowLong (after_of x.now)) }
{
    let made = bytes_after(alloc, x.text.as_bytes())?;
    position(alloc, made.as_slice())
}

fn bytes_before(alloc: Global, x: &[u8]) -> Result<Vec<u8>, NoMemory>
    ensures { IfOk result (λ v. v.items ≡ before_of x.now) }
{
    let mut made = Vec::new(alloc);
    push_before(&mut made, x)?;
    Ok(made)
}

/// A position before x. Too long only where x is 4,095 spaces and `!`.
pub fn before(alloc: Global, x: &Pos) -> Result<Pos, PosFault>
    ensures ok { IfOk result (λ p. p ≡ before_of x.now) }
    ensures position { IfOk result (λ p. is_pos p ≡ true) }
    ensures err { IfErr result (SaysHowLong (before_of x.now)) }
{
    let made = bytes_before(alloc, x.text.as_bytes())?;
    position(alloc, made.as_slice())
}

fn bytes_between(alloc: Global, x: &[u8], y: &[u8]) -> Result<Vec<u8>, NoMemory>
    ensures { IfOk result (λ v. v.items ≡ between_of x.now (Some y.now)) }
{
    let mut made = Vec::new(alloc);
    push_amid(&mut made, x, y)?;
    Ok(made)
}

fn bytes_above(alloc: Global, x: &[u8]) -> Result<Vec<u8>, NoMemory>
    ensures { IfOk result (λ v. v.items ≡ between_of x.now None) }
{
    let mut made = Vec::new(alloc);
    push_above(&mut made, x)?;
    Ok(made)
}

fn between_two(alloc: Global, x: &Pos, y: &Pos) -> Result<Pos, PosFault>
    requires { IsBelow x.now y.now }
    ensures ok { IfOk result (λ p. p ≡ between_of x.now (Some y.now)) }
    ensures err { IfErr result (SaysHowLong (between_of x.now (Some y.now))) }
{
    let made = bytes_between(alloc, x.text.as_bytes(), y.text.as_bytes())?;
    position(alloc, made.as_slice())
}

fn between_last(alloc: Global, x: &Pos) -> Result<Pos, PosFault>
    ensures ok { IfOk result (λ p. p ≡ between_of x.now None) }
    ensures err { IfErr result (SaysHowLong (between_of x.now None)) }
{
    let made = bytes_above(alloc, x.text.as_bytes())?;
    position(alloc, made.as_slice())
}

/// A position between x and y, or after x where y is absent.
pub fn between(alloc: Global, x: &Pos, y: Option<&Pos>) -> Result<Pos, PosFault>
    requires { IfSome (option_copied y) (λ b. IsBelow x.now b) }
    ensures ok { IfOk result (λ p. p ≡ between_of x.now (option_copied y.entry)) }
    ensures position { IfOk result (λ p. is_pos p ≡ true) }
    ensures err { IfErr result (SaysHowLong (between_of x.now (option_copied y.entry))) }
{
    match y {
        Some(y) => between_two(alloc, x, y),
        None => between_last(alloc, x),
    }
}
