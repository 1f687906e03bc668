//! What is sent, in both directions.
ghost use Rattle.std.specs.Prelude.{◌≡◌, List, ℕ, map, true, IfOk, OnOk};
ghost use Rattle.room_msg.specs.Written.{client_text};
ghost use Rattle.room_msg.specs.declared.messages.ClientMsg.{ClientMsg};
ghost use Rattle.room_links.specs.Outs.{written};
ghost use Rattle.room_model.specs.Server.{Outbound};
ghost use Rattle.room_model.specs.World.{World as Model, is_attached, send_inbound, deliver, inbound_frame};
ghost use Rattle.room_moves.specs.Parts.{with_conns};
ghost use Rattle.room_moves.specs.Reading.{AreFramesRead, AreSendsRead};
ghost use Rattle.room_world.specs.Sending.{mail_to, AreSent};

use room_fuse::Stopping;
use room_json::{Names, NoMemory, Seq};
use room_links::{Out, Outs};
use room_queues::{Mail, Queues};
use std::alloc::Global;

/// What goes out on a connection, as it waits there.
fn mail_of(out: Out) -> (u64, Mail)
    ensures { result ≡ mail_to out }
{
    match out {
        Out::Send(k, text) => (k, Mail::Frame(text)),
        Out::Close(k, code, text) => (k, Mail::Close(code, text)),
    }
}

fn mails_of(alloc: Global, outs: Outs) -> Result<Seq<(u64, Mail)>, NoMemory>
    ensures { IfOk result (λ ms. ms ≡ map mail_to outs) }
{
    let mut mails = Seq::new(alloc);
    for out in outs.into_vec() {
        mails.push(mail_of(out))?;
    }
    Ok(mails)
}

/// What the server sends goes down.
pub(crate) fn send_down<D: Stopping>(
    alloc: Global,
    queues: &mut Queues<D>,
    outs: Outs,
) -> Result<(), NoMemory>
    requires { D.tells ≡ true → D.stops ≡ true → AreSent outs }
    ensures { (os : List (ℕ × Outbound)) → outs ≡ map written os → AreSendsRead os
        → OnOk result (queues.new ≡ deliver queues.old os) }
{
    let mails = mails_of(alloc, outs)?;
    queues.deliver(mails)
}

/// Texts of frames go up on a connection, where the server has it.
pub(crate) fn send_up<D: Stopping>(
    queues: &mut Queues<D>,
    attached: bool,
    k: u64,
    texts: Names,
) -> Result<(), NoMemory>
    ensures { (w : Model) (frames : List (List ClientMsg)) → w.conns ≡ queues.old → is_attached w k ≡ attached
        → texts ≡ map client_text frames → AreFramesRead frames
        → OnOk result (send_inbound w k (map inbound_frame frames) ≡ with_conns w queues.new) }
{
    if attached {
        queues.send(k, texts)
    } else {
        Ok(())
    }
}
