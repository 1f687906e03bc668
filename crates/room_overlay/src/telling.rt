//! Which of the own operations an update acknowledges.
ghost use Rattle.std.specs.Prelude.{◌≡◌, ◌≤◌, ℕ, IfOk, OnOk};
ghost use Rattle.room_json.specs.Limits.{max_whole};
ghost use Rattle.room_model.specs.Receive.{none_own, told_by};

use room_nodes::Op;

/// The greatest own clock, where the own clocks run on and were issued; else the clock that is kept and the one that
/// came.
pub(crate) fn told_by(actor: u32, limit: u64, told: u64, ops: &[Op]) -> Result<u64, (u64, u64)>
    requires within { told ≤ limit }
    requires bound { limit ≤ max_whole }
    ensures told { result ≡ told_by actor limit told ops.now }
    ensures within { IfOk result (λ c. (told ≤ c) × (c ≤ limit)) }
{
    let mut kept = told;
    for op in ops {
        if op.id.0.actor() == actor {
            let clock = op.id.0.clock();
            if clock == kept + 1 && clock <= limit {
                kept += 1;
            } else {
                return Err((kept, clock));
            }
        }
    }
    Ok(kept)
}

/// Whether no operation is the actor's own.
pub(crate) fn none_own(actor: u32, ops: &[Op]) -> bool
    ensures { result ≡ none_own actor ops.now }
{
    for op in ops {
        if actor == op.id.0.actor() {
            return false;
        }
    }
    true
}
