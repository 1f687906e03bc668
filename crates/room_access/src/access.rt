//! Passes, rules and levels.
use room_json::{Seq, Text};

/// What a group may do in a room, in rising order.
#[derive(Clone, Copy, Debug, PartialEq, Eq)]
pub enum Level {
    Nothing,
    Read,
    Presence,
    Write,
}

/// A word that gives a group.
#[derive(Drop)]
pub struct Pass {
    pub word: Text,
    pub group: Text,
}

/// A room and a group, of which each may be `*`, and their level.
#[derive(Drop)]
pub struct Rule {
    pub room: Text,
    pub group: Text,
    pub level: Level,
}

/// Passes in their order.
pub type Passes = Seq<Pass>;

/// Rules in their order, numbered from 0.
pub type Policy = Seq<Rule>;

/// Who may do what.
#[derive(Drop)]
pub struct Access {
    pub passes: Passes,
    pub policy: Policy,
}

/// A level, and the number of the rule that decided.
#[derive(Clone, Copy, Debug, PartialEq, Eq)]
pub struct Decision {
    pub level: Level,
    pub row: Option<u64>,
}
