//! What every value of a type is.
ghost use Rattle.std.specs.Prelude.{All};
ghost use Rattle.room_json.specs.Profile.{IsWhole, IsJson, AreJson, AreSoundMembers};

use crate::lists::Seq;
use crate::numbers::Whole;
use crate::tree::{Items, Json, Members};
use crate::utf8::Text;

/// What every value of a type is, beyond its shape: a call learns it and changes nothing.
pub trait Sound {
    ghost sound: { Self → Type 0 };

    /// That this value is so.
    fn sound(&self)
        ensures { sound self.now };
}

impl Sound for Text {
    ghost use Rattle.std.specs.Prelude.{IsUtf8};

    ghost sound = { IsUtf8 };

    fn sound(&self) {
        self.as_str();
    }
}

impl Sound for Whole {
    ghost use Rattle.room_json.specs.Profile.{IsWhole};

    ghost sound = { IsWhole };

    fn sound(&self) {
        self.get();
    }
}

impl Sound for Items {
    ghost use Rattle.room_json.specs.Profile.{AreJson};
    ghost use Rattle.room_json.specs.Value.{values_of};

    ghost sound = { λ vs. AreJson (values_of vs) };

    fn sound(&self) {
        let _ = &self.items;
    }
}

#[tactic(auto, using(crate::proofs::Views::views))]
impl Sound for Members {
    ghost use Rattle.room_json.specs.Profile.{AreSoundMembers};

    ghost sound = { AreSoundMembers };

    fn sound(&self) {
        self.entries.len();
    }
}

#[tactic(auto, using(crate::proofs::Values::list_laws))]
impl Sound for Json {
    ghost use Rattle.room_json.specs.Profile.{IsJson};
    ghost use Rattle.room_json.specs.View.{json_of};

    ghost sound = { λ v. IsJson (json_of v) };

    fn sound(&self) {
        match self {
            Json::Null | Json::Flag(_) => {}
            Json::Int(whole) => whole.sound(),
            Json::Text(text) => text.sound(),
            Json::List(items) => items.sound(),
            Json::Object(members) => members.sound(),
        }
    }
}

impl<T: Sound> Sound for Seq<T> {
    ghost use Rattle.std.specs.Prelude.{All};

    ghost sound = { All T.sound };

    fn sound(&self) {
        all_sound(self.as_slice());
    }
}

fn all_sound<T: Sound>(items: &[T])
    ensures { All T.sound items.now }
{
    for item in items {
        item.sound();
    }
}
