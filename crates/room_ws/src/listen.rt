//! Where streams come from.
ghost use Rattle.std.specs.Prelude.{ℕ, List};
ghost use Rattle.std.specs.declared.option.Option.{Option};
ghost use Rattle.room_edge.specs.Causes.{HasCause};
ghost use Rattle.room_ws.specs.Waiting.{Takes};

use room_edge::Failed;
use std::io::{Read, Write};

/// Streams that come one after the other: those that peers open, or those that are opened to a peer.
pub trait Listen {
    /// A stream of bytes in both directions.
    type Stream: Read + Write + Drop;

    /// The streams that wait, the first first, where they are known.
    ghost waiting: { Self → Option (List Self.Stream) };

    /// How many calls failed, up to the end of the type that counts them.
    ghost faults: { Self → ℕ };

    /// Takes the next stream, or none where none waits.
    fn accept(&mut self) -> Result<Option<Self::Stream>, Failed>
        ensures takes { Takes (waiting self.old) (waiting self.new) result }
        ensures cause { HasCause (faults self.old) (faults self.new) result };
}
