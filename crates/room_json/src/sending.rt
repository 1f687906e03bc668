//! A value as the serializer takes it, with no copy of its texts.
ghost use Rattle.std.specs.Prelude.{◌≡◌, OnOk, map};
ghost use Rattle.serde_json.specs.Data.{array, object};
ghost use Rattle.serde_json.specs.Events.{SendsValue};
ghost use Rattle.room_json.specs.Profile.{AreJson, HaveJson};
ghost use Rattle.room_json.specs.Sent.{Sends};
ghost use Rattle.room_json.specs.Value.{list, values_of};
ghost use Rattle.room_json.specs.View.{json_of, object_of_entries};

use crate::tree::Json;
use crate::utf8::Text;
use serde::{Described, Serialize, Serializer};
use serde_json::Number;
use std::collections::BTreeMap;

impl Described for Json {
    ghost writes = { λ v. Sends (json_of v) };
}

impl Serialize for Json {
    fn serialize<S: Serializer>(&self, out: &mut S) -> Result<(), S::Error> {
        send(self, out)
    }
}

#[cycle(send)]
fn send<S: Serializer>(v: &Json, out: &mut S) -> Result<(), S::Error>
    ensures { OnOk result (Sends (json_of v.now) (S.written out.old) (S.written out.new)) }
{
    match v {
        Json::Null => out.unit(),
        Json::Flag(flag) => out.bool(*flag),
        Json::Int(whole) => Number::from(whole.get()).serialize(out),
        Json::Text(text) => out.str(text.as_str()),
        Json::List(items) => send_items(items.items.as_slice(), out),
        Json::Object(members) => send_members(&members.entries, out),
    }
}

#[cycle(send)]
fn send_items<S: Serializer>(items: &[Json], out: &mut S) -> Result<(), S::Error>
    ensures { OnOk result (Sends (list (values_of (map json_of items.now))) (S.written out.old) (S.written out.new)) }
{
    out.begin_seq(Some(items.len()))?;
    for item in items {
        send(item, out)?;
    }
    out.end_seq()
}

#[cycle(send)]
fn send_members<S: Serializer>(entries: &BTreeMap<Text, Json>, out: &mut S) -> Result<(), S::Error>
    ensures { OnOk result (Sends (object_of_entries entries.now.entries) (S.written out.old) (S.written out.new)) }
{
    out.begin_map(Some(entries.len()))?;
    for (name, item) in entries.iter() {
        out.key(name.as_str())?;
        send(item, out)?;
    }
    out.end_map()
}
