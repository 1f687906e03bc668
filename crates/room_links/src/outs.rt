//! What goes out on connections.
ghost use Rattle.std.specs.Prelude.{◌≡◌, IfOk};
ghost use Rattle.room_links.specs.Outs.{out_to};

use room_json::{Copied, NoMemory, Seq, Text};
use std::alloc::Global;

/// A text that is sent on a connection, or a connection that is closed with a code and a text.
#[derive(Drop)]
pub enum Out {
    Send(u64, Text),
    Close(u64, u16, Text),
}

/// Sends and closes in their order.
pub type Outs = Seq<Out>;

/// What goes out, before a connection is named.
#[derive(Drop)]
pub enum Sending {
    Says(Text),
    Shuts(u16, Text),
}

/// This on a connection.
pub fn out_on(alloc: Global, conn: u64, sending: &Sending) -> Result<Out, NoMemory>
    ensures { IfOk result (λ o. o ≡ out_to conn sending.now) }
{
    match sending {
        Sending::Says(text) => Ok(Out::Send(conn, text.copy(alloc)?)),
        Sending::Shuts(code, text) => Ok(Out::Close(conn, *code, text.copy(alloc)?)),
    }
}
