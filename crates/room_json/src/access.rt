//! What a value is, where it is that.
ghost use Rattle.std.specs.Prelude.{◌≡◌, IfSome};
ghost use Rattle.std.specs.Option.{option_copied};
ghost use Rattle.room_json.specs.Profile.{IsWhole};
ghost use Rattle.room_json.specs.Value.{as_flag, as_list, as_members, as_text, as_whole};
ghost use Rattle.room_json.specs.View.{json_of};

use crate::tree::{Items, Json, Members};
use crate::utf8::Text;

#[tactic(auto, using(crate::proofs::Values::list_laws))]
impl Json {
    /// The values, where this is a list.
    pub fn as_list(&self) -> Option<&Items>
        ensures { option_copied result ≡ as_list (json_of self.now) }
    {
        match self {
            Json::List(items) => Some(items),
            _ => None,
        }
    }

    /// The members, where this is an object.
    pub fn as_object(&self) -> Option<&Members>
        ensures { option_copied result ≡ as_members (json_of self.now) }
    {
        match self {
            Json::Object(members) => Some(members),
            _ => None,
        }
    }

    /// The text, where this is one.
    pub fn as_text(&self) -> Option<&Text>
        ensures { option_copied result ≡ as_text (json_of self.now) }
    {
        match self {
            Json::Text(text) => Some(text),
            _ => None,
        }
    }

    /// The number, where this is one.
    pub fn as_int(&self) -> Option<i64>
        ensures value { result ≡ as_whole (json_of self.now) }
        ensures bound { IfSome result IsWhole }
    {
        match self {
            Json::Int(whole) => Some(whole.get()),
            _ => None,
        }
    }

    /// The truth value, where this is one.
    pub fn as_flag(&self) -> Option<bool>
        ensures { result ≡ as_flag (json_of self.now) }
    {
        match self {
            Json::Flag(flag) => Some(*flag),
            _ => None,
        }
    }
}
