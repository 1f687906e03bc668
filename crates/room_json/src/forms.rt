//! The text and the depth of a value.
ghost use Rattle.std.specs.Prelude.{◌≡◌, ◌≤◌, ◌-◌, ◌^◌, min, map, Ok, IfOk, OnOk};
ghost use Rattle.room_json.specs.Limits.{max_depth};
ghost use Rattle.room_json.specs.Profile.{IsJson};
ghost use Rattle.room_json.specs.Reading.{value_of_text};
ghost use Rattle.room_json.specs.Value.{depth as depth_of, values_depth, fields_depth, values_of, fields_of, text_of};
ghost use Rattle.room_json.specs.View.{json_of, members_view};

use crate::memory::NoMemory;
use crate::tree::Json;
use crate::utf8::Text;
use std::alloc::Global;
use std::collections::BTreeMap;

/// The compact text of a value, names in byte order.
///
/// Where the value is at most 60 deep, the text is read again as that value.
#[tactic(auto, using(crate::proofs::Values::no_float))]
pub fn write(alloc: Global, v: &Json) -> Result<Text, NoMemory>
    ensures text { IfOk result (λ t. t ≡ text_of (json_of v.now)) }
    ensures json { OnOk result (IsJson (json_of v.now)) }
    ensures again { IfOk result (λ t. depth_of (json_of v.now) ≤ max_depth → value_of_text t ≡ Ok (json_of v.now)) }
{
    let Ok(text) = serde_json::to_string(alloc, v) else {
        return Err(NoMemory);
    };
    Ok(Text::from_string(text))
}

/// How deep lists and objects nest: 0 for a scalar, else one more than the deepest member, 1 where there is none.
#[cycle(depth)]
pub fn depth(v: &Json) -> u64
    ensures { result ≡ min (depth_of (json_of v.now)) (2 ^ 64 - 1) }
{
    match v {
        Json::List(items) => list_depth(items.items.as_slice()).saturating_add(1),
        Json::Object(members) => object_depth(&members.entries).saturating_add(1),
        _ => 0,
    }
}

#[cycle(depth)]
fn list_depth(v: &[Json]) -> u64
    ensures { result ≡ min (values_depth (values_of (map json_of v.now))) (2 ^ 64 - 1) }
{
    let mut most = 0;
    for item in v {
        most = depth(item).max(most);
    }
    most
}

#[cycle(depth)]
fn object_depth(v: &BTreeMap<Text, Json>) -> u64
    ensures { result ≡ min (fields_depth (fields_of (members_view v.now.entries))) (2 ^ 64 - 1) }
{
    let mut most = 0;
    for (_name, item) in v.iter() {
        most = depth(item).max(most);
    }
    most
}
