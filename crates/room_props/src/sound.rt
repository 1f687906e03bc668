//! What every live value and every edit is.
use crate::editing::Edit;
use crate::live::{Init, Inits, Parts};
use room_json::Sound;

impl Sound for Inits {
    ghost use Rattle.room_model.specs.Sound.{AreSoundInits};
    ghost use Rattle.room_props.specs.Inits.{inits_of};

    ghost sound = { λ is. AreSoundInits (inits_of is) };

    fn sound(&self) {
        let _ = &self.items;
    }
}

#[tactic(auto, using(crate::proofs::Views::views))]
impl Sound for Parts {
    ghost use Rattle.room_props.specs.Inits.{AreSoundNamed};

    ghost sound = { AreSoundNamed };

    fn sound(&self) {
        self.entries.len();
    }
}

impl Sound for Init {
    ghost use Rattle.room_model.specs.Sound.{IsSoundInit};
    ghost use Rattle.room_props.specs.Inits.{init_of};

    ghost sound = { λ i. IsSoundInit (init_of i) };

    fn sound(&self) {
        match self {
            Init::Plain(value) => value.sound(),
            Init::Object(parts) | Init::Map(parts) => parts.sound(),
            Init::List(items) => items.sound(),
        }
    }
}

impl Sound for Edit {
    ghost use Rattle.room_model.specs.Sound.{IsSoundEdit};
    ghost use Rattle.room_props.specs.Edits.{edit_of};

    ghost sound = { λ e. IsSoundEdit (edit_of e) };

    fn sound(&self) {
        match self {
            Edit::Set { node, key, init } => {
                node.sound();
                key.sound();
                init.sound();
            }
            Edit::Update { node, fields } => {
                node.sound();
                fields.sound();
            }
            Edit::Remove { node, key } => {
                node.sound();
                key.sound();
            }
            Edit::Push { list, init } => {
                list.sound();
                init.sound();
            }
            Edit::Insert {
                list,
                index: _,
                init,
            } => {
                list.sound();
                init.sound();
            }
            Edit::Put {
                list,
                index: _,
                init,
            } => {
                list.sound();
                init.sound();
            }
            Edit::Move {
                list,
                from: _,
                to: _,
            } => list.sound(),
            Edit::Take { list, index: _ } => list.sound(),
            Edit::Clear { list } => list.sound(),
        }
    }
}
