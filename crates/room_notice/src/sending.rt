//! The JSON of notices, as the serializer takes it, with no copy of what they hold.
ghost use Rattle.std.specs.Prelude.{◌≡◌, OnOk, IfOk, map};
ghost use Rattle.room_json.specs.Value.{list, members, text, text_of, values_of, fields_of};
ghost use Rattle.room_json.specs.View.{json_of, members_view};
ghost use Rattle.room_model.specs.Notices.{Insert, Move, Reset, Take};
ghost use Rattle.room_model.specs.Notices.{keyed_out, notice_out, notices_value, path_out, place_out};
ghost use Rattle.room_notice.specs.Emitted.{Emits};
ghost use Rattle.room_notice.specs.Notices.{notice_of, notices_in, place_of, places_of};

use crate::shapes::{Notice, Notices, Step};
use room_json::{Json, Members, NoMemory, Text};
use serde::{Described, Serialize, Serializer};
use std::alloc::Global;
use std::collections::BTreeMap;

fn send_place<S: Serializer>(step: &Step, out: &mut S) -> Result<(), S::Error>
    ensures { OnOk result (Emits (place_out (place_of step.now)) (S.written out.old) (S.written out.new)) }
{
    match step {
        Step::Key(name) => out.str(name.as_str()),
        Step::Index(index) => out.u64(*index),
    }
}

fn send_path<S: Serializer>(path: &[Step], out: &mut S) -> Result<(), S::Error>
    ensures { OnOk result (Emits (path_out (places_of path.now)) (S.written out.old) (S.written out.new)) }
{
    out.begin_seq(Some(path.len()))?;
    for step in path {
        send_place(step, out)?;
    }
    out.end_seq()
}

fn send_names<S: Serializer>(names: &[Text], out: &mut S) -> Result<(), S::Error>
    ensures { OnOk result (Emits (list (values_of (map text names.now))) (S.written out.old) (S.written out.new)) }
{
    out.begin_seq(Some(names.len()))?;
    for name in names {
        out.str(name.as_str())?;
    }
    out.end_seq()
}

fn send_entries<S: Serializer>(entries: &BTreeMap<Text, Json>, out: &mut S) -> Result<(), S::Error>
    ensures { OnOk result
        (Emits (members (fields_of (members_view entries.now.entries))) (S.written out.old) (S.written out.new)) }
{
    out.begin_map(Some(entries.len()))?;
    for (name, item) in entries.iter() {
        out.key(name.as_str())?;
        item.serialize(out)?;
    }
    out.end_map()
}

fn send_set<S: Serializer>(set: &Members, out: &mut S) -> Result<(), S::Error>
    ensures { OnOk result (Emits (members (fields_of set.now)) (S.written out.old) (S.written out.new)) }
{
    send_entries(set.as_map(), out)
}

fn send_keyed<S: Serializer>(
    kind: &str,
    path: &[Step],
    set: &Members,
    unset: &[Text],
    out: &mut S,
) -> Result<(), S::Error>
    ensures { OnOk result
        (Emits (keyed_out kind.now (places_of path.now) set.now unset.now) (S.written out.old) (S.written out.new)) }
{
    out.begin_map(Some(4))?;
    out.key("kind")?;
    out.str(kind)?;
    out.key("path")?;
    send_path(path, out)?;
    out.key("set")?;
    send_set(set, out)?;
    out.key("unset")?;
    send_names(unset, out)?;
    out.end_map()
}

fn send_insert<S: Serializer>(
    path: &[Step],
    index: u64,
    value: &Json,
    out: &mut S,
) -> Result<(), S::Error>
    ensures { OnOk result (Emits (notice_out (Insert (places_of path.now) index (json_of value.now)))
        (S.written out.old) (S.written out.new)) }
{
    out.begin_map(Some(4))?;
    out.key("index")?;
    out.u64(index)?;
    out.key("kind")?;
    out.str("insert")?;
    out.key("path")?;
    send_path(path, out)?;
    out.key("value")?;
    value.serialize(out)?;
    out.end_map()
}

fn send_take<S: Serializer>(path: &[Step], index: u64, out: &mut S) -> Result<(), S::Error>
    ensures { OnOk result
        (Emits (notice_out (Take (places_of path.now) index)) (S.written out.old) (S.written out.new)) }
{
    out.begin_map(Some(3))?;
    out.key("index")?;
    out.u64(index)?;
    out.key("kind")?;
    out.str("take")?;
    out.key("path")?;
    send_path(path, out)?;
    out.end_map()
}

fn send_move<S: Serializer>(path: &[Step], from: u64, to: u64, out: &mut S) -> Result<(), S::Error>
    ensures { OnOk result
        (Emits (notice_out (Move (places_of path.now) from to)) (S.written out.old) (S.written out.new)) }
{
    out.begin_map(Some(4))?;
    out.key("from")?;
    out.u64(from)?;
    out.key("kind")?;
    out.str("move")?;
    out.key("path")?;
    send_path(path, out)?;
    out.key("to")?;
    out.u64(to)?;
    out.end_map()
}

fn send_reset<S: Serializer>(view: &Json, out: &mut S) -> Result<(), S::Error>
    ensures { OnOk result
        (Emits (notice_out (Reset (json_of view.now))) (S.written out.old) (S.written out.new)) }
{
    out.begin_map(Some(2))?;
    out.key("kind")?;
    out.str("reset")?;
    out.key("view")?;
    view.serialize(out)?;
    out.end_map()
}

fn send_notice<S: Serializer>(notice: &Notice, out: &mut S) -> Result<(), S::Error>
    ensures { OnOk result (Emits (notice_out (notice_of notice.now)) (S.written out.old) (S.written out.new)) }
{
    match notice {
        Notice::Fields { path, set, unset } => {
            send_keyed("fields", path.as_slice(), set, unset.as_slice(), out)
        }
        Notice::Keys { path, set, unset } => {
            send_keyed("keys", path.as_slice(), set, unset.as_slice(), out)
        }
        Notice::Insert { path, index, value } => send_insert(path.as_slice(), *index, value, out),
        Notice::Take { path, index } => send_take(path.as_slice(), *index, out),
        Notice::Move { path, from, to } => send_move(path.as_slice(), *from, *to, out),
        Notice::Reset(view) => send_reset(view, out),
    }
}

fn send_notices<S: Serializer>(notices: &[Notice], out: &mut S) -> Result<(), S::Error>
    ensures { OnOk result (Emits (notices_value (notices_in notices.now)) (S.written out.old) (S.written out.new)) }
{
    out.begin_seq(Some(notices.len()))?;
    for notice in notices {
        send_notice(notice, out)?;
    }
    out.end_seq()
}

/// Notices, as the serializer takes them.
#[derive(Drop)]
struct Sent<'a> {
    notices: &'a [Notice],
}

impl<'a> Described for Sent<'a> {
    ghost use Rattle.room_model.specs.Notices.{notices_value};
    ghost use Rattle.room_notice.specs.Emitted.{Emits};
    ghost use Rattle.room_notice.specs.Notices.{notices_in};

    ghost writes = { λ s. Emits (notices_value (notices_in s.notices.now)) };
}

impl<'a> Serialize for Sent<'a> {
    fn serialize<S: Serializer>(&self, out: &mut S) -> Result<(), S::Error> {
        send_notices(self.notices, out)
    }
}

/// The JSON of notices, as compact text.
pub fn write_notices(alloc: Global, notices: &Notices) -> Result<Text, NoMemory>
    ensures { IfOk result (λ t. t ≡ text_of (notices_value (notices_in notices.now))) }
{
    let sent = Sent {
        notices: notices.as_slice(),
    };
    let Ok(text) = serde_json::to_string(alloc, &sent) else {
        return Err(NoMemory);
    };
    Text::from_str(alloc, text.as_str())
}
