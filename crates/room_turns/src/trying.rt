//! What goes out is tried, all of it, and what was lost is noted.
ghost use Rattle.std.specs.Prelude.{◌≡◌, ◌≤◌, ◌++◌, ◌∷◌, List, ℕ, [], true, map, length, slice_get, IfOk, OnOk, OnErr, if◌then◌else◌};
ghost use Rattle.room_hub.specs.declared.hub.Happening.TheVariants.{Did};
ghost use Rattle.room_links.specs.Outs.{written};
ghost use Rattle.room_log.specs.Log.{Entry};
ghost use Rattle.room_model.specs.Server.{Outbound, Server};
ghost use Rattle.room_serving.specs.Serving.{Ending, treat, with_lost};
ghost use Rattle.room_turns.specs.Parts.{trying, Leads, Begins};
ghost use Rattle.room_turns.specs.Trying.{conn_of, deed_of, is_number, number_below, owed_after};
ghost use Rattle.room_turns.specs.Trying.{Tries, TriesOrNot};

use room_hub::{Hub, SendFault};
use room_json::{NoMemory, Seq};
use room_server::Out;
use std::alloc::Global;

/// How many numbers at the front, which rise, are below one.
fn number_below(numbers: &[u64], conn: u64) -> usize
    ensures within { result ≤ length numbers.now }
    ensures value { result ≡ number_below numbers.now conn }
{
    let mut at = 0;
    for number in numbers {
        if conn <= *number {
            return at;
        }
        at += 1;
    }
    at
}

/// Whether that number stands there.
fn is_there(numbers: &Seq<u64>, at: usize, conn: u64) -> bool
    ensures { result ≡ is_number (slice_get numbers.now at) conn }
{
    match numbers.get(at as u64) {
        Some(number) => *number == conn,
        None => false,
    }
}

/// Puts a number among others, which rise, once.
fn note(lost: &mut Seq<u64>, conn: u64) -> Result<(), NoMemory>
    ensures { OnOk result (lost.new ≡ with_lost lost.old conn) }
{
    let at = number_below(lost.as_slice(), conn);
    if is_there(lost, at, conn) {
        return Ok(());
    }
    lost.insert(at, conn)
}

/// Whether it was lost.
fn try_one<H: Hub>(hub: &mut H, out: &Out) -> Result<bool, NoMemory>
    ensures told { H.tells ≡ true
        → IfOk result (λ lost. H.happened hub.new ≡ H.happened hub.old ++ Did (deed_of out.now lost) ∷ []) }
    ensures none { H.tells ≡ true → OnErr result (H.happened hub.new ≡ H.happened hub.old) }
    ensures asked { H.asked hub.new ≡ H.asked hub.old }
    ensures later { H.faults hub.old ≤ H.faults hub.new }
{
    let tried = match out {
        Out::Send(conn, text) => hub.send(*conn, text),
        Out::Close(conn, code, text) => hub.close(*conn, *code, text),
    };
    match tried {
        Ok(()) => Ok(false),
        Err(SendFault::Lost) => Ok(true),
        Err(SendFault::Memory) => Err(NoMemory),
    }
}

fn conn_of(out: &Out) -> u64
    ensures { result ≡ conn_of out.now }
{
    match out {
        Out::Send(conn, _) => *conn,
        Out::Close(conn, _, _) => *conn,
    }
}

/// Tries one, and notes its connection where it was lost.
fn attempt<H: Hub>(hub: &mut H, out: &Out, lost: &mut Seq<u64>) -> Result<(), NoMemory>
    ensures tries { H.tells ≡ true → OnOk result
        (Tries out.now (H.happened hub.old) (H.happened hub.new) lost.old lost.new) }
    ensures perhaps { H.tells ≡ true → OnErr result
        (TriesOrNot out.now (H.happened hub.old) (H.happened hub.new)) }
    ensures asked { H.asked hub.new ≡ H.asked hub.old }
    ensures later { H.faults hub.old ≤ H.faults hub.new }
{
    if try_one(hub, out)? {
        note(lost, conn_of(out))?;
    }
    Ok(())
}

/// Tries all of them in order; the connections with a loss, in rising order.
pub(crate) fn try_all<H: Hub>(
    alloc: Global,
    hub: &mut H,
    outs: &[Out],
) -> Result<Seq<u64>, NoMemory>
    ensures leads { H.tells ≡ true → (v : Server) (left : ℕ) (ending : Ending) (todo : List (ℕ × Outbound))
        (groups : List (List Entry)) (owed : ℕ) → map written todo ≡ outs.now → IfOk result (λ lost.
        Leads (trying v left ending todo [] groups owed) (H.happened hub.old) (H.happened hub.new)
        (treat (trying v left ending [] [] groups (owed_after todo groups owed)) [] lost)) }
    ensures begins { H.tells ≡ true → (v : Server) (left : ℕ) (ending : Ending) (todo : List (ℕ × Outbound))
        (groups : List (List Entry)) (owed : ℕ) → map written todo ≡ outs.now → OnErr result
        (Begins (trying v left ending todo [] groups owed) (H.happened hub.old) (H.happened hub.new)) }
    ensures asked { H.asked hub.new ≡ H.asked hub.old }
    ensures later { H.faults hub.old ≤ H.faults hub.new }
{
    let mut lost = Seq::new(alloc);
    for out in outs {
        attempt(hub, out, &mut lost)?;
    }
    Ok(lost)
}
