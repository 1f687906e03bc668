//! Events are gathered into a turn.
ghost use Rattle.std.specs.Prelude.{◌≡◌, ◌≤◌, ◌<◌, ◌+◌, ◌++◌, ◌∷◌, ◌==◌, ◌||◌, List, ℕ, [], true, nat_le};
ghost use Rattle.std.specs.Prelude.{IfOk, OnOk, OnErr};
ghost use Rattle.room_edge.specs.Memory.{next};
ghost use Rattle.room_log.specs.Log.{Entry};
ghost use Rattle.room_model.specs.Server.{Server};
ghost use Rattle.room_serving.specs.Serving as serving;
ghost use Rattle.room_serving.specs.Serving.{does_turn};
ghost use Rattle.room_turns.specs.Faults.{NextFailed};
ghost use Rattle.room_turns.specs.Gathering.{happening_of, ending_is, events_of, is_missed};
ghost use Rattle.room_turns.specs.Parts.{gathering, Leads, Begins};

use room_hub::{Event, Hub, HubFault};
use room_json::NoMemory;
use room_server::{Arrivals, Came};
use std::alloc::Global;

/// Whether events still come.
#[derive(Clone, Copy, Debug, PartialEq, Eq)]
pub(crate) enum Ending {
    GoesOn,
    /// The hub gave its end.
    Ended,
    /// The hub failed.
    Missed,
}

/// What a hub gives: something for the server, or what ends the gathering of a turn.
#[derive(Drop)]
enum Given {
    Arrives(Came),
    Ends(Ending),
}

/// The events of a turn, what ended their gathering, and how often the hub may still be asked.
#[derive(Drop)]
pub(crate) struct Gathered {
    pub(crate) came: Arrivals,
    pub(crate) ending: Ending,
    pub(crate) left: u64,
}

/// Asks the hub.
fn ask<H: Hub>(hub: &mut H) -> Result<Given, NoMemory>
    ensures told { H.tells ≡ true
        → IfOk result (λ g. H.happened hub.new ≡ H.happened hub.old ++ happening_of g ∷ []) }
    ensures none { H.tells ≡ true → OnErr result (H.happened hub.new ≡ H.happened hub.old) }
    ensures asked { H.asked hub.new ≡ next (H.asked hub.old) }
    ensures later { H.faults hub.old ≤ H.faults hub.new }
    ensures missed { IfOk result (λ g. is_missed g ≡ true
        → NextFailed H.tells H.happened H.asked H.faults hub.old hub.new) }
{
    match hub.next() {
        Ok(Event::Opened(conn, key)) => Ok(Given::Arrives(Came::Opened(conn, key))),
        Ok(Event::Frame(conn, text)) => Ok(Given::Arrives(Came::Frame(conn, text))),
        Ok(Event::Gone(conn)) => Ok(Given::Arrives(Came::Gone(conn))),
        Ok(Event::Quiet) => Ok(Given::Ends(Ending::GoesOn)),
        Ok(Event::End) => Ok(Given::Ends(Ending::Ended)),
        Err(HubFault::Failed) => Ok(Given::Ends(Ending::Missed)),
        Err(HubFault::Memory) => Err(NoMemory),
    }
}

/// Whether a turn of so many events is full, where the hub may still be asked so often.
fn is_full(gathered: u64, left: u64) -> bool
    ensures { result ≡ (nat_le 64 gathered || left == 0) }
{
    gathered >= 64 || left == 0
}

/// Gathers the events of a turn: until none is ready, the end comes, the hub fails, 64 have come, or the last call was made.
pub(crate) fn gather<H: Hub>(alloc: Global, hub: &mut H, left: u64) -> Result<Gathered, NoMemory>
    requires { 0 < left }

    // What happens on the hub leads to where the events are one turn.
    ensures leads { H.tells ≡ true → (v : Server) (groups : List (List Entry)) (owed : ℕ) → IfOk result (λ g.
        Leads (gathering v left serving.GoesOn [] groups owed) (H.happened hub.old) (H.happened hub.new)
        (does_turn (gathering v g.left (ending_is g.ending) (events_of g.came) groups owed))) }
    ensures begins { H.tells ≡ true → (v : Server) (groups : List (List Entry)) (owed : ℕ) → OnErr result
        (Begins (gathering v left serving.GoesOn [] groups owed) (H.happened hub.old) (H.happened hub.new)) }
    ensures less { IfOk result (λ g. g.left < left) }
    ensures asked { IfOk result (λ g. H.asked hub.new + g.left ≤ H.asked hub.old + left) }
    ensures most { H.asked hub.new ≤ H.asked hub.old + left }
    ensures later { H.faults hub.old ≤ H.faults hub.new }
    ensures missed { IfOk result (λ g. ending_is g.ending ≡ serving.Missed
        → NextFailed H.tells H.happened H.asked H.faults hub.old hub.new) }
{
    let mut came = Arrivals::new(alloc);
    let mut left = left;
    while !is_full(came.len(), left) {
        left -= 1;
        match ask(hub)? {
            Given::Arrives(arrival) => came.push(arrival)?,
            Given::Ends(ending) => return Ok(Gathered { came, ending, left }),
        }
    }
    Ok(Gathered {
        came,
        ending: Ending::GoesOn,
        left,
    })
}
