//! Cases of `room_presence`: what calls in a row leave.
use room_case_text::{Broken, items, number_at, object_at, shown, text_at, value};
use room_json::{Copied, Json};
use room_presence::Presence;
use std::alloc::Global;

/// What the others show after each of the calls, and at the end the user's own.
pub(crate) fn left_by(alloc: Global, calls: &str) -> Result<String, Broken> {
    let mut presence = Presence::new(alloc);
    let mut text = String::new(alloc);
    for call in items(&value(alloc, calls)?)?.as_slice() {
        make(alloc, &mut presence, call)?;
        text.push_str(shown(alloc, &presence.others(alloc)?)?.as_str())?;
        text.push_str(" ")?;
    }
    let me = shown(alloc, &Json::Object(presence.me().copy(alloc)?))?;
    Ok(format!(in alloc; "{text}me {me}")?)
}

/// One call: a word, an actor but for one's own, and an object.
fn make(alloc: Global, presence: &mut Presence, call: &Json) -> Result<(), Broken> {
    match text_at(call, 0)?.as_str() {
        "me" => presence.patch_me(alloc, object_at(call, 1)?)?,
        "full" => presence.full(alloc, actor(call)?, object_at(call, 2)?)?,
        "patch" => presence.patch(alloc, actor(call)?, object_at(call, 2)?)?,
        "forget" => presence.forget(actor(call)?),
        _ => presence.forget_all(),
    }
    Ok(())
}

fn actor(call: &Json) -> Result<u32, Broken> {
    match u32::try_from(number_at(call, 1)?) {
        Ok(actor) => Ok(actor),
        Err(_) => Err(Broken::Number),
    }
}
