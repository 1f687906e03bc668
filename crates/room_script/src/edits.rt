//! Edits as text.
ghost use Rattle.std.specs.Option.{option_copied};
ghost use Rattle.room_props.specs.Inits.{init_of};
ghost use Rattle.room_props.specs.Edits.{edit_of};
ghost use Rattle.room_script.specs.Edits.{set_edit, update_edit, remove_edit, push_edit, insert_edit, put_edit};
ghost use Rattle.room_script.specs.Edits.{move_edit, take_edit, clear_edit, init_to_end};
ghost use Rattle.room_script.specs.Edits.{list_edit_named, edit_named, edit_in};
ghost use Rattle.room_script.specs.Giving.{Gives};

use crate::fault::Misread;
use crate::live::live;
use crate::numbers::{read_node, read_number};
use crate::words::{at_end, cut, last_object, last_value, next, read_key};
use room_props::{Edit, Init};
use std::alloc::Global;

/// An edit to the line's end.
pub(crate) fn read_edit(alloc: Global, rest: Option<&[u8]>) -> Result<Edit, Misread>
    ensures { Gives edit_of result (edit_in (option_copied rest.entry)) }
{
    let (name, rest) = cut(next(rest)?);
    edit_by_name(alloc, name, rest)
}

fn edit_by_name(alloc: Global, name: &[u8], rest: Option<&[u8]>) -> Result<Edit, Misread>
    ensures { Gives edit_of result (edit_named name.now (option_copied rest.entry)) }
{
    if name == b"set".as_slice() {
        read_set(alloc, rest)
    } else if name == b"update".as_slice() {
        read_update(alloc, rest)
    } else if name == b"delete".as_slice() {
        read_remove(alloc, rest)
    } else {
        list_edit_by_name(alloc, name, rest)
    }
}

fn list_edit_by_name(alloc: Global, name: &[u8], rest: Option<&[u8]>) -> Result<Edit, Misread>
    ensures { Gives edit_of result (list_edit_named name.now (option_copied rest.entry)) }
{
    if name == b"push".as_slice() {
        read_push(alloc, rest)
    } else if name == b"insert".as_slice() {
        read_insert(alloc, rest)
    } else if name == b"put".as_slice() {
        read_put(alloc, rest)
    } else if name == b"move".as_slice() {
        read_move(rest)
    } else if name == b"take".as_slice() {
        read_take(rest)
    } else if name == b"empty".as_slice() {
        read_clear(rest)
    } else {
        Err(Misread::Outside)
    }
}

/// A live or plain value to the line's end.
fn read_init(alloc: Global, rest: Option<&[u8]>) -> Result<Init, Misread>
    ensures { Gives init_of result (init_to_end (option_copied rest.entry)) }
{
    let value = last_value(alloc, rest)?;
    Ok(live(alloc, &value)?)
}

fn read_set(alloc: Global, rest: Option<&[u8]>) -> Result<Edit, Misread>
    ensures { Gives edit_of result (set_edit (option_copied rest.entry)) }
{
    let (word, rest) = cut(next(rest)?);
    let node = read_node(word)?;
    let (word, rest) = cut(next(rest)?);
    let key = read_key(alloc, word)?;
    let init = read_init(alloc, rest)?;
    Ok(Edit::Set { node, key, init })
}

fn read_update(alloc: Global, rest: Option<&[u8]>) -> Result<Edit, Misread>
    ensures { Gives edit_of result (update_edit (option_copied rest.entry)) }
{
    let (word, rest) = cut(next(rest)?);
    let node = read_node(word)?;
    let fields = last_object(alloc, rest)?;
    Ok(Edit::Update { node, fields })
}

fn read_remove(alloc: Global, rest: Option<&[u8]>) -> Result<Edit, Misread>
    ensures { Gives edit_of result (remove_edit (option_copied rest.entry)) }
{
    let (word, rest) = cut(next(rest)?);
    let node = read_node(word)?;
    let (word, rest) = cut(next(rest)?);
    let key = read_key(alloc, word)?;
    at_end(rest)?;
    Ok(Edit::Remove { node, key })
}

fn read_push(alloc: Global, rest: Option<&[u8]>) -> Result<Edit, Misread>
    ensures { Gives edit_of result (push_edit (option_copied rest.entry)) }
{
    let (word, rest) = cut(next(rest)?);
    let list = read_node(word)?;
    let init = read_init(alloc, rest)?;
    Ok(Edit::Push { list, init })
}

fn read_insert(alloc: Global, rest: Option<&[u8]>) -> Result<Edit, Misread>
    ensures { Gives edit_of result (insert_edit (option_copied rest.entry)) }
{
    let (word, rest) = cut(next(rest)?);
    let list = read_node(word)?;
    let (word, rest) = cut(next(rest)?);
    let index = read_number(word, u64::MAX)?;
    let init = read_init(alloc, rest)?;
    Ok(Edit::Insert { list, index, init })
}

fn read_put(alloc: Global, rest: Option<&[u8]>) -> Result<Edit, Misread>
    ensures { Gives edit_of result (put_edit (option_copied rest.entry)) }
{
    let (word, rest) = cut(next(rest)?);
    let list = read_node(word)?;
    let (word, rest) = cut(next(rest)?);
    let index = read_number(word, u64::MAX)?;
    let init = read_init(alloc, rest)?;
    Ok(Edit::Put { list, index, init })
}

fn read_move(rest: Option<&[u8]>) -> Result<Edit, Misread>
    ensures { Gives edit_of result (move_edit (option_copied rest.entry)) }
{
    let (word, rest) = cut(next(rest)?);
    let list = read_node(word)?;
    let (word, rest) = cut(next(rest)?);
    let from = read_number(word, u64::MAX)?;
    let (word, rest) = cut(next(rest)?);
    let to = read_number(word, u64::MAX)?;
    at_end(rest)?;
    Ok(Edit::Move { list, from, to })
}

fn read_take(rest: Option<&[u8]>) -> Result<Edit, Misread>
    ensures { Gives edit_of result (take_edit (option_copied rest.entry)) }
{
    let (word, rest) = cut(next(rest)?);
    let list = read_node(word)?;
    let (word, rest) = cut(next(rest)?);
    let index = read_number(word, u64::MAX)?;
    at_end(rest)?;
    Ok(Edit::Take { list, index })
}

fn read_clear(rest: Option<&[u8]>) -> Result<Edit, Misread>
    ensures { Gives edit_of result (clear_edit (option_copied rest.entry)) }
{
    let (word, rest) = cut(next(rest)?);
    let list = read_node(word)?;
    at_end(rest)?;
    Ok(Edit::Clear { list })
}
