//! What is new of the operations that a session sends.
ghost use Rattle.std.specs.Prelude.{◌≡◌, ◌≤◌, ◌+◌, length, nat_lt};
ghost use Rattle.room_log.specs.Log.{last_of};
ghost use Rattle.room_log.specs.Taking.{rest_beyond, gap_in};
ghost use Rattle.room_arrivals.specs.News.{news_in};

use room_ids::OpId;
use room_nodes::{Op, Ops};
use room_store::Store;
use room_tree::Tree;

/// What is new of operations: nothing, or the clocks have a gap, or they run on.
#[derive(Drop)]
pub enum News {
    Nothing,
    /// Which clock was expected, and which came.
    Gap(u64, u64),
    RunOn,
}

/// Whether an operation is beyond the last clock.
fn is_any_new(last: u64, ops: &[Op]) -> bool
    ensures { result ≡ nat_lt 0 (length (rest_beyond last ops.now)) }
{
    for op in ops {
        let OpId(stamp) = op.id;
        if last < stamp.clock() {
            return true;
        }
    }
    false
}

/// Where the clocks of the operations beyond the last one don't run on: which was expected there, and which came.
fn gap_of(last: u64, ops: &[Op]) -> Option<(u64, u64)>
    requires { last + 1 ≤ 9007199254740992 }
    ensures { result ≡ gap_in (last + 1) (rest_beyond last ops.now) }
{
    let mut expected = last + 1;
    for op in ops {
        let OpId(stamp) = op.id;
        let clock = stamp.clock();
        if last < clock {
            if clock != expected {
                return Some((expected, clock));
            }
            expected = clock + 1;
        }
    }
    None
}

/// What is new of operations beyond the last clock.
fn news_of(last: u64, ops: &[Op]) -> News
    requires { last + 1 ≤ 9007199254740992 }
    ensures { result ≡ news_in (rest_beyond last ops.now) (gap_in (last + 1) (rest_beyond last ops.now)) }
{
    if !is_any_new(last, ops) {
        return News::Nothing;
    }
    match gap_of(last, ops) {
        Some((expected, got)) => News::Gap(expected, got),
        None => News::RunOn,
    }
}

/// What is new of an actor's operations. Takes no memory.
#[tactic(auto, using(crate::proofs::Clocks::next_low))]
pub fn news_for<T: Tree>(store: &Store<T>, actor: u32, ops: &Ops) -> News
    ensures { result ≡ news_in (rest_beyond (last_of store.now.state.sessions actor) ops.now)
        (gap_in (last_of store.now.state.sessions actor + 1)
        (rest_beyond (last_of store.now.state.sessions actor) ops.now)) }
{
    store.valid();
    news_of(store.last_of(actor), ops.as_slice())
}
