//! What an edit puts in place: plain values, and live objects, maps and lists.
use room_json::{Json, Text};
use std::collections::BTreeMap;
use std::marker::Model;

/// What an edit puts in place.
#[cycle(init)]
#[derive(Drop)]
pub enum Init {
    /// A value: a field of a live object, and elsewhere a node of its own.
    Plain(Json),
    /// A live object; its plain members are its fields.
    Object(Parts),
    /// A live map.
    Map(Parts),
    /// A live list.
    List(Inits),
}

/// The members of a live object or map, in byte order of their names. Contracts see the list of names and what they
/// hold.
#[cycle(init)]
#[derive(Drop)]
pub struct Parts {
    pub(crate) entries: BTreeMap<Text, Init>,
}

/// The items of a live list. Contracts see the list of what they stand for.
#[cycle(init)]
#[derive(Drop)]
pub struct Inits {
    pub(crate) items: Vec<Init>,
}

impl Model for Parts {
    ghost use Rattle.std.specs.Prelude.{List, ℕ};
    ghost use Rattle.room_model.specs.Init.{Init as Meaning};
    ghost use Rattle.room_props.specs.Codes.{coded_list_of_parts};
    ghost use Rattle.room_props.specs.Weights.{list_weight_of_parts};

    ghost Value = { List (List ℕ × Meaning) };

    ghost coded = { coded_list_of_parts };

    ghost use Rattle.room_props.specs.Inits.{named};

    ghost view = { λ a. named a.entries.entries };

    ghost use Rattle.room_model.specs.Sound.{AreSoundParts};
    ghost use Rattle.room_props.specs.Inits.{parts_in};

    ghost invariant = { λ a. AreSoundParts (parts_in a.entries.entries) };

    ghost size = { list_weight_of_parts };

    ghost use Rattle.room_props.specs.Falls.{parts_fall};

    ghost size_decreases = { λ a h. parts_fall a.entries.entries };
}

impl Model for Inits {
    ghost use Rattle.std.specs.Prelude.{List, map};
    ghost use Rattle.room_model.specs.Init.{Init as Meaning};
    ghost use Rattle.room_props.specs.Codes.{coded_list_of_inits};
    ghost use Rattle.room_props.specs.Weights.{list_weight};

    ghost Value = { List Meaning };

    ghost coded = { coded_list_of_inits };

    ghost use Rattle.room_props.specs.Inits.{init_of};

    ghost view = { λ a. map init_of a.items.items };

    ghost use Rattle.room_model.specs.Sound.{AreSoundInits};
    ghost use Rattle.room_props.specs.Inits.{items_in};

    ghost invariant = { λ a. AreSoundInits (items_in a.items.items) };

    ghost size = { list_weight };

    ghost use Rattle.room_props.specs.Falls.{inits_fall};

    ghost size_decreases = { λ a h. inits_fall a.items.items };
}
