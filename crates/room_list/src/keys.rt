//! The position of an item that comes between two others.
ghost use Rattle.std.specs.Prelude.{◌≡◌, ◌≤◌, length, true, IfOk, IfErr};
ghost use Rattle.std.specs.Option.{option_copied};
ghost use Rattle.room_ids.specs.Position.{is_pos, SaysHowLong};
ghost use Rattle.room_effect.specs.Beside.{AreNeighbours, key_between as key_between_of};
ghost use Rattle.room_list.specs.Long.{IsLongKey};

use room_ids::{Pos, PosFault, after, before, between, first};
use room_json::{Copied, NoMemory, Text};
use room_props::EditFault;
use std::alloc::Global;

/// The position that a text is.
fn position(alloc: Global, key: &Text) -> Result<Pos, NoMemory>
    requires { is_pos key.now ≡ true }
    ensures { IfOk result (λ p. p ≡ key.now) }
{
    match Pos::read(alloc, key)? {
        Some(position) => Ok(position),
        None => unreachable!(),
    }
}

fn behind(alloc: Global, left: &Text, right: Option<&Text>) -> Result<Pos, PosFault>
    requires { AreNeighbours (Some left.now) (option_copied right) }
    ensures ok { IfOk result (λ p. p ≡ key_between_of (Some left.now) (option_copied right.entry)) }
    ensures err { IfErr result (SaysHowLong (key_between_of (Some left.now) (option_copied right.entry))) }
{
    let left = position(alloc, left)?;
    match right {
        Some(right) => {
            let right = position(alloc, right)?;
            between(alloc, &left, Some(&right))
        }
        None => after(alloc, &left),
    }
}

fn in_front(alloc: Global, right: Option<&Text>) -> Result<Pos, PosFault>
    requires { AreNeighbours None (option_copied right) }
    ensures ok { IfOk result (λ p. p ≡ key_between_of None (option_copied right.entry)) }
    ensures err { IfErr result (SaysHowLong (key_between_of None (option_copied right.entry))) }
{
    match right {
        Some(right) => {
            let right = position(alloc, right)?;
            before(alloc, &right)
        }
        None => Ok(first(alloc)?),
    }
}

fn position_between(
    alloc: Global,
    left: Option<&Text>,
    right: Option<&Text>,
) -> Result<Pos, PosFault>
    requires { AreNeighbours (option_copied left) (option_copied right) }
    ensures ok { IfOk result (λ p. p ≡ key_between_of (option_copied left.entry) (option_copied right.entry)) }
    ensures err { IfErr result (SaysHowLong (key_between_of (option_copied left.entry) (option_copied right.entry))) }
{
    match left {
        Some(left) => behind(alloc, left, right),
        None => in_front(alloc, right),
    }
}

/// The position between two others, of which one or both may be missing. Copies these two.
pub(crate) fn key_between(
    alloc: Global,
    left: Option<&Text>,
    right: Option<&Text>,
) -> Result<Text, EditFault>
    requires { AreNeighbours (option_copied left) (option_copied right) }
    ensures ok { IfOk result (λ k. k ≡ key_between_of (option_copied left.entry) (option_copied right.entry)) }
    ensures short { IfOk result (λ k. length k ≤ 4096) }
    ensures err { IfErr result (IsLongKey (key_between_of (option_copied left.entry) (option_copied right.entry))) }
{
    match position_between(alloc, left, right) {
        Ok(position) => Ok(position.text().copy(alloc)?),
        Err(PosFault::TooLong(bytes)) => Err(EditFault::PosTooLong(bytes)),
        Err(PosFault::Memory) => Err(EditFault::Memory),
    }
}
