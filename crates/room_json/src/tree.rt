//! Values, and what they stand for.
use crate::numbers::Whole;
use crate::utf8::Text;
use std::collections::BTreeMap;
use std::marker::Model;

/// A JSON value whose numbers are whole.
#[cycle(json)]
#[derive(Drop)]
pub enum Json {
    /// `null`.
    Null,
    /// `true` or `false`.
    Flag(bool),
    /// A whole number.
    Int(Whole),
    /// A text.
    Text(Text),
    /// A list of values.
    List(Items),
    /// Values by name.
    Object(Members),
}

/// The values of a list. Contracts see the list of what they stand for.
#[cycle(json)]
#[derive(Drop)]
pub struct Items {
    pub(crate) items: Vec<Json>,
}

/// The members of an object, in byte order of their names. Contracts see the list of names and values.
#[cycle(json)]
#[derive(Drop)]
pub struct Members {
    pub(crate) entries: BTreeMap<Text, Json>,
}

impl Model for Items {
    ghost use Rattle.std.specs.Prelude.{List, map};
    ghost use Rattle.room_json.specs.Value.{Value as Meaning};
    ghost use Rattle.room_json.specs.Codes.{coded_list_of_values};
    ghost use Rattle.room_json.specs.Weights.{list_weight};

    ghost Value = { List Meaning };

    ghost coded = { coded_list_of_values };

    ghost use Rattle.room_json.specs.View.{json_of};

    ghost view = { λ a. map json_of a.items.items };

    ghost use Rattle.room_json.specs.Profile.{AreJson};
    ghost use Rattle.room_json.specs.Value.{values_of};

    ghost invariant = { λ a. AreJson (values_of (map json_of a.items.items)) };

    ghost size = { list_weight };

    ghost use Rattle.room_json.specs.Falls.{items_fall};

    ghost size_decreases = { λ a h. items_fall a.items.items };
}

impl Model for Members {
    ghost use Rattle.std.specs.Prelude.{List, ℕ};
    ghost use Rattle.room_json.specs.Value.{Value as Meaning};
    ghost use Rattle.room_json.specs.Codes.{coded_list_of_fields};
    ghost use Rattle.room_json.specs.Weights.{pairs_weight};

    ghost Value = { List (List ℕ × Meaning) };

    ghost coded = { coded_list_of_fields };

    ghost use Rattle.room_json.specs.View.{members_view};

    ghost view = { λ a. members_view a.entries.entries };

    ghost use Rattle.room_json.specs.Profile.{HaveJson};
    ghost use Rattle.room_json.specs.Value.{fields_of};

    ghost invariant = { λ a. HaveJson (fields_of (members_view a.entries.entries)) };

    ghost size = { pairs_weight };

    ghost use Rattle.room_json.specs.Falls.{members_fall};

    ghost size_decreases = { λ a h. members_fall a.entries.entries };
}
