//! Cases of `room_access`: what is decided by a text, and which group a word gives.
use room_access::{Access, AccessFault, Decision, Level, decide, group_of, read_access};
use room_case_text::{Broken, item, text_at, value};
use room_json::Json;
use std::alloc::Global;

/// What comes of a case of access: a text, and a room and a group or a word.
pub(crate) fn outcome(alloc: Global, verb: &str, rest: &str) -> Result<String, Broken> {
    let v = value(alloc, rest)?;
    match read_access(alloc, text_at(&v, 0)?.as_bytes()) {
        Ok(access) => of_access(alloc, &access, verb, &v),
        Err(AccessFault::Memory) => Err(Broken::Memory),
        Err(fault) => Ok(format!(in alloc; "{fault}")?),
    }
}

fn of_access(alloc: Global, a: &Access, verb: &str, v: &Json) -> Result<String, Broken> {
    match verb {
        "decide" => {
            let decision = decide(&a.policy, text_at(v, 1)?, text_at(v, 2)?);
            told(alloc, decision)
        },
        "group" => group(alloc, a, v),
        _ => Err(Broken::Verb),
    }
}

fn named(level: Level) -> &'static str {
    match level {
        Level::Nothing => "nothing",
        Level::Read => "read",
        Level::Presence => "presence",
        Level::Write => "write",
    }
}

/// The level, and the row of the rule that decided.
fn told(alloc: Global, decision: Decision) -> Result<String, Broken> {
    let level = named(decision.level);
    match decision.row {
        Some(row) => Ok(format!(in alloc; "{level}, row {row}")?),
        None => Ok(format!(in alloc; "{level}, no row")?),
    }
}

/// The group of a word, which may be `null`.
fn group(alloc: Global, a: &Access, v: &Json) -> Result<String, Broken> {
    let group = match item(v, 1)? {
        Json::Text(word) => group_of(alloc, a, Some(word))?,
        _ => group_of(alloc, a, None)?,
    };
    Ok(format!(in alloc; "{}", group.as_str())?)
}
