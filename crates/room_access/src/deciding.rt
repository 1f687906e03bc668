//! The group of a word, and the level of a group in a room.
ghost use Rattle.std.specs.Prelude.{◌≡◌, map, IfOk};
ghost use Rattle.std.specs.Option.{option_copied};
ghost use Rattle.room_model.specs.Access as model;
ghost use Rattle.room_access.specs.View.{access_of, decision_of, rule_of, pass_of};

use crate::access::{Access, Decision, Level, Pass, Policy, Rule};
use room_json::{Copied, NoMemory, Text};
use std::alloc::Global;

/// The level of a group in a room: that of the first rule that fits, and its number.
pub fn decide(p: &Policy, room: &Text, group: &Text) -> Decision
    ensures { decision_of result ≡ model.decide (map rule_of p.now) room.now group.now }
{
    decide_among(p.as_slice(), room.as_bytes(), group.as_bytes())
}

fn decide_among(rules: &[Rule], room: &[u8], group: &[u8]) -> Decision
    ensures { decision_of result ≡ model.decide (map rule_of rules.now) room.now group.now }
{
    for at in 0..rules.len() {
        let rule = &rules[at];
        if fits(rule.room.as_bytes(), room) && fits(rule.group.as_bytes(), group) {
            return Decision {
                level: rule.level,
                row: Some(at as u64),
            };
        }
    }
    Decision {
        level: Level::Nothing,
        row: None,
    }
}

/// Whether a rule's room or group is this one, or any.
fn fits(rule: &[u8], word: &[u8]) -> bool
    ensures { result ≡ model.fits_word rule.now word.now }
{
    rule == word || rule == b"*".as_slice()
}

/// The group of the first pass with this word; a guest, where there is no word or no such pass.
pub fn group_of(alloc: Global, a: &Access, word: Option<&Text>) -> Result<Text, NoMemory>
    ensures { IfOk result (λ t. t ≡ model.group_of (access_of a.now) (option_copied word.entry)) }
{
    match word {
        Some(word) => group_among(alloc, a.passes.as_slice(), word.as_bytes()),
        None => Text::from_str(alloc, "guest"),
    }
}

fn group_among(alloc: Global, passes: &[Pass], word: &[u8]) -> Result<Text, NoMemory>
    ensures { IfOk result (λ t. t ≡ model.group_among (map pass_of passes.now) word.now) }
{
    for entry in passes {
        if entry.word.as_bytes() == word {
            return entry.group.copy(alloc);
        }
    }
    Text::from_str(alloc, "guest")
}
