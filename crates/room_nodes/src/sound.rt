//! What every node, every operation and every change is.
ghost use Rattle.room_nodes.specs.Sound.{IsSomeInRange};

use crate::nodes::{Body, Change, Kind, Node, Op};
use room_ids::NodeId;
use room_json::Sound;

impl Sound for Kind {
    ghost use Rattle.room_nodes.specs.Sound.{IsSoundKind};

    ghost sound = { IsSoundKind };

    fn sound(&self) {
        match self {
            Kind::Object(fields) => fields.sound(),
            Kind::List | Kind::Map => {}
            Kind::Register(value) => value.sound(),
        }
    }
}

impl Sound for Node {
    ghost use Rattle.room_nodes.specs.Sound.{IsSoundNode};

    ghost sound = { IsSoundNode };

    fn sound(&self) {
        self.parent.sound();
        self.key.sound();
        self.kind.sound();
    }
}

fn some_sound(id: &Option<NodeId>)
    ensures { IsSomeInRange id.now }
{
    match id {
        None => {}
        Some(id) => id.sound(),
    }
}

impl Sound for Body {
    ghost use Rattle.room_nodes.specs.Sound.{IsSoundBody};

    ghost sound = { IsSoundBody };

    fn sound(&self) {
        match self {
            Body::SetKey { node, key } => {
                node.sound();
                key.sound();
            }
            Body::Create {
                node,
                parent,
                key,
                replaces,
                kind,
            } => {
                node.sound();
                parent.sound();
                key.sound();
                some_sound(replaces);
                kind.sound();
            }
            Body::Update { node, fields } => {
                node.sound();
                fields.sound();
            }
            Body::Delete { node } => node.sound(),
            Body::DeleteKey { node, key } => {
                node.sound();
                key.sound();
            }
        }
    }
}

impl Sound for Op {
    ghost use Rattle.room_nodes.specs.Sound.{IsSoundOp};

    ghost sound = { IsSoundOp };

    fn sound(&self) {
        self.id.sound();
        self.body.sound();
    }
}

impl Sound for Change {
    ghost use Rattle.room_nodes.specs.Sound.{IsSoundChange};

    ghost sound = { IsSoundChange };

    fn sound(&self) {
        match self {
            Change::Op(body) => body.sound(),
            Change::Presence(patch) => patch.sound(),
        }
    }
}
