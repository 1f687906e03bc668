//! Who made something: stamps, and the ids of nodes and operations.
ghost use Rattle.std.specs.Prelude.{◌≡◌, ◌≤◌, ◌↔◌, IsSome, IfSome};
ghost use Rattle.room_json.specs.Limits.{max_whole};

use room_json::MAX_WHOLE;
use std::marker::Model;

/// The greatest actor: 2^32-1.
pub const MAX_ACTOR: u32 = u32::MAX;

/// Who made something, and as which of its own: an actor and a clock of at most 2^53-1.
#[derive(Clone, Copy, Debug, PartialEq, Eq)]
pub struct Stamp {
    actor: u32,
    clock: u64,
}

impl Model for Stamp {
    ghost use Rattle.std.specs.Prelude.{◌≤◌};
    ghost use Rattle.room_json.specs.Limits.{max_whole};
    ghost use Rattle.room_ids.specs.Stamp.{Stamp as Meaning};

    ghost Value = { Meaning };

    ghost view = { λ s. record { actor = s.actor; clock = s.clock } };

    ghost invariant = { λ s. s.clock ≤ max_whole };

    ghost inverse = { λ m. record { actor = m.actor; clock = m.clock } };
}

impl Stamp {
    /// The stamp of an actor and a clock, unless the clock is over 2^53-1.
    pub fn new(actor: u32, clock: u64) -> Option<Stamp>
        ensures exact { IsSome result ↔ (clock ≤ max_whole) }
        ensures value { IfSome result (λ s. s ≡ record { actor = actor; clock = clock }) }
    {
        if clock <= MAX_WHOLE {
            Some(Stamp { actor, clock })
        } else {
            None
        }
    }

    /// Who made it.
    pub fn actor(&self) -> u32
        ensures { result ≡ self.now.actor }
    {
        self.actor
    }

    /// Its number among what this actor made, at most 2^53-1.
    pub fn clock(&self) -> u64
        ensures value { result ≡ self.now.clock }
        ensures bound { result ≤ max_whole }
    {
        self.clock
    }
}

/// A node: the root, or one that was made.
#[derive(Clone, Copy, Debug, PartialEq, Eq)]
pub enum NodeId {
    Root,
    Made(Stamp),
}

/// An operation.
#[derive(Clone, Copy, Debug, PartialEq, Eq)]
pub struct OpId(pub Stamp);
