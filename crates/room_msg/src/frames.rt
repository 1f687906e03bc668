//! The texts of frames as they are read.
ghost use Rattle.std.specs.Prelude.{◌≡◌, ◌≤◌, IfOk, IfErr, Ok};
ghost use Rattle.room_json.specs.Value.{depth};
ghost use Rattle.room_json.specs.View.{json_of};
ghost use Rattle.room_msg.specs.Frame.{frame_value_in, client_msgs_in, client_frame_in, server_frame_in};
ghost use Rattle.room_msg.specs.Msg.{IsFaultOf};
ghost use Rattle.room_msg.specs.Sound.{IsSoundClientFrame, IsShallowClientFrame, IsSoundServerFrame};

use crate::messages::{ClientFrame, ServerFrame};
use crate::reading::read_msgs;
use crate::reason::{MsgFault, Reason};
use crate::receiving::read_server_msgs;
use room_json::{Json, Sound, Text, read};
use std::alloc::Global;

/// A client's frame has at most this many bytes.
pub const MAX_FRAME: u64 = 1_048_576;

#[tactic(auto, using(crate::proofs::Refusals::refused_as))]
fn read_text(alloc: Global, text: &Text) -> Result<Json, MsgFault>
    ensures ok { IfOk result (λ v. frame_value_in text.now ≡ Ok (json_of v)) }
    ensures shallow { IfOk result (λ v. depth (json_of v) ≤ 60) }
    ensures err { IfErr result (IsFaultOf (frame_value_in text.now)) }
{
    let json = read(alloc, text.as_bytes())?;
    Ok(json)
}

fn read_list(alloc: Global, v: &Json) -> Result<ClientFrame, MsgFault>
    ensures ok { IfOk result (λ f. client_msgs_in (json_of v.now) ≡ Ok f) }
    ensures err { IfErr result (IsFaultOf (client_msgs_in (json_of v.now))) }
{
    match v.as_list() {
        Some(items) => Ok(ClientFrame::Msgs(read_msgs(alloc, items.as_slice())?)),
        None => Err(MsgFault::Bad(Reason::List)),
    }
}

/// What a client's frame holds.
///
/// `Bad` has the first reason why the frame is refused, `Memory` says that memory ran out. Reads the text once, and
/// copies what the messages keep.
#[tactic(auto, using(crate::proofs::SoundClient::client_sound, crate::proofs::SoundClient::client_shallow))]
pub fn read_client(alloc: Global, text: &Text) -> Result<ClientFrame, MsgFault>
    ensures ok { IfOk result (λ f. client_frame_in text.now ≡ Ok f) }
    ensures sound { IfOk result IsSoundClientFrame }
    ensures shallow { IfOk result IsShallowClientFrame }
    ensures err { IfErr result (IsFaultOf (client_frame_in text.now)) }
{
    if text.len() > MAX_FRAME {
        return Err(MsgFault::Bad(Reason::Size));
    }
    if text.as_str() == "ping" {
        return Ok(ClientFrame::Ping);
    }
    let value = read_text(alloc, text)?;
    let frame = read_list(alloc, &value)?;
    value.sound();
    Ok(frame)
}

/// What a server's frame holds, of any length.
///
/// `Bad` has the first reason why the frame is refused, `Memory` says that memory ran out. Reads the text once, and
/// copies what the messages keep.
#[tactic(auto, using(crate::proofs::SoundServer::server_sound))]
pub fn read_server(alloc: Global, text: &Text) -> Result<ServerFrame, MsgFault>
    ensures ok { IfOk result (λ f. server_frame_in text.now ≡ Ok f) }
    ensures sound { IfOk result IsSoundServerFrame }
    ensures err { IfErr result (IsFaultOf (server_frame_in text.now)) }
{
    if text.as_str() == "pong" {
        return Ok(ServerFrame::Pong);
    }
    let value = read_text(alloc, text)?;
    let msgs = read_server_msgs(alloc, &value)?;
    value.sound();
    Ok(ServerFrame::Msgs(msgs))
}
