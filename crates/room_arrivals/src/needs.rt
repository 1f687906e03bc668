//! The level that messages need.
ghost use Rattle.std.specs.Prelude.{◌≡◌, option_map};
ghost use Rattle.room_access.specs.View.{decision_of, level_of};
ghost use Rattle.room_model.specs.Access as access;

use room_access::{Decision, Level};
use room_msg::ClientMsg;

fn rank(level: Level) -> u8
    ensures { result ≡ access.rank (level_of level) }
{
    match level {
        Level::Nothing => 0,
        Level::Read => 1,
        Level::Presence => 2,
        Level::Write => 3,
    }
}

fn need_of(msg: &ClientMsg) -> Level
    ensures { level_of result ≡ access.need_of msg.now }
{
    match msg {
        ClientMsg::Hello(_) => Level::Read,
        ClientMsg::Presence { target: _, patch } => {
            if patch.len() == 0 {
                Level::Read
            } else {
                Level::Presence
            }
        },
        ClientMsg::Broadcast(_) => Level::Presence,
        ClientMsg::Fetch => Level::Read,
        ClientMsg::Update(_) => Level::Write,
    }
}

fn allows_all(level: Level, msgs: &[ClientMsg]) -> bool
    ensures { result ≡ access.allows_all (level_of level) msgs.now }
{
    for msg in msgs {
        if rank(need_of(msg)) > rank(level) {
            return false;
        }
    }
    true
}

/// What bars a connection from messages, by what was decided at its hello; nothing where no access was asked for.
pub fn barred(decision: Option<Decision>, msgs: &[ClientMsg]) -> Option<Decision>
    ensures { option_map decision_of result ≡ access.barred (option_map decision_of decision) msgs.now }
{
    let decision = decision?;
    if allows_all(decision.level, msgs) {
        return None;
    }
    Some(decision)
}
