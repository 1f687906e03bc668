//! Frames of the server.
use crate::broken::Broken;
use crate::refusals::of_frame;
use crate::texts::{all_shown, shown, told};
use room_client::{Client, Outcome};
use room_json::{Json, Text, write};
use room_tree::PlainTree;
use std::alloc::Global;

/// What comes of a frame: replies, events with their actors, and what changed in the view.
pub(crate) fn outcome(
    alloc: Global,
    c: &mut Client<PlainTree>,
    frame: &Text,
) -> Result<String, Broken> {
    match c.frame(alloc, frame) {
        Ok(given) => given_shown(alloc, &given),
        Err(fault) => of_frame(alloc, &fault),
    }
}

fn given_shown(alloc: Global, given: &Outcome) -> Result<String, Broken> {
    let notices = told(alloc, &given.notices)?;
    let replies = all_shown(alloc, &given.replies)?;
    let mut all = format!(in alloc; "replies {replies}, notices {notices}")?;
    for (actor, event) in given.events.as_slice() {
        all.push_str(event_shown(alloc, *actor, event)?.as_str())?;
    }
    Ok(all)
}

fn event_shown(alloc: Global, actor: u32, event: &Json) -> Result<String, Broken> {
    let text = shown(alloc, &write(alloc, event)?)?;
    Ok(format!(in alloc; ", event of {actor} {text}")?)
}
