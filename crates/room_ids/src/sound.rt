//! What every id and every position is.
use crate::ids::{NodeId, OpId, Stamp};
use crate::places::Pos;
use room_json::Sound;

impl Sound for Stamp {
    ghost use Rattle.room_ids.specs.Laws.{IsInRange};

    ghost sound = { IsInRange };

    fn sound(&self) {
        self.actor();
        self.clock();
    }
}

impl Sound for NodeId {
    ghost use Rattle.room_ids.specs.Laws.{IsNodeInRange};

    ghost sound = { IsNodeInRange };

    fn sound(&self) {
        match self {
            NodeId::Root => {}
            NodeId::Made(stamp) => stamp.sound(),
        }
    }
}

impl Sound for OpId {
    ghost use Rattle.room_ids.specs.Laws.{IsInRange};

    ghost sound = { λ o. IsInRange o.0 };

    fn sound(&self) {
        self.0.sound();
    }
}

impl Sound for Pos {
    ghost use Rattle.std.specs.Prelude.{◌≡◌, true, IsUtf8};
    ghost use Rattle.room_ids.specs.Position.{is_pos};

    ghost sound = { λ p. (is_pos p ≡ true) × IsUtf8 p };

    fn sound(&self) {
        self.text().sound();
    }
}
