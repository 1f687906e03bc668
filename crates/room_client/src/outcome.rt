//! What a frame gives.
ghost use Rattle.std.specs.Prelude.{◌≡◌, ◌++◌, [], OnOk};

use crate::frames::Frames;
use room_json::{Json, NoMemory, Seq};
use room_notice::Notices;
use std::alloc::Global;

/// Events that came, each with its actor.
pub type Heard = Seq<(u32, Json)>;

/// What a frame gives: frames that answer it, events that came, and what changed in the view.
#[derive(Drop)]
pub struct Outcome {
    pub replies: Frames,
    pub events: Heard,
    pub notices: Notices,
}

/// Nothing.
pub(crate) fn nothing(alloc: Global) -> Outcome
    ensures { result ≡ record { replies = []; events = []; notices = [] } }
{
    Outcome {
        replies: Seq::new(alloc),
        events: Seq::new(alloc),
        notices: Seq::new(alloc),
    }
}

/// Appends items.
fn append<T: Drop>(list: &mut Seq<T>, more: Seq<T>) -> Result<(), NoMemory>
    ensures { OnOk result (list.new ≡ list.old ++ more) }
{
    let mut more = more.into_vec();
    let mut all = std::mem::replace(list, Seq::new(*more.allocator())).into_vec();
    let done = all.append(&mut more);
    *list = Seq::from_vec(all);
    done?;
    Ok(())
}

/// Appends what was given then. Out of memory it may be appended in part.
pub(crate) fn add(so_far: &mut Outcome, more: Outcome) -> Result<(), NoMemory>
    ensures { OnOk result (so_far.new ≡ record {
      replies = so_far.old.replies ++ more.replies;
      events = so_far.old.events ++ more.events;
      notices = so_far.old.notices ++ more.notices;
    }) }
{
    append(&mut so_far.replies, more.replies)?;
    append(&mut so_far.events, more.events)?;
    append(&mut so_far.notices, more.notices)
}
