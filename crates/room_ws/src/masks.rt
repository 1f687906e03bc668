//! The random bytes of a client's connection.
ghost use Rattle.std.specs.Prelude.{◌≡◌};
ghost use Rattle.room_ws.specs.Drawing.{drawn, byte_of};

use tungstenite::MaskKeys;

/// Bytes drawn from a first state. A server masks nothing, and draws none.
#[derive(Drop)]
pub(crate) struct Masks {
    state: u64,
}

impl Masks {
    pub(crate) fn new(state: u64) -> Masks
        ensures { result.state ≡ state }
    {
        Masks { state }
    }

    /// The next byte.
    pub(crate) fn draw(&mut self) -> u8
        ensures byte { result ≡ byte_of self.old.state }
        ensures state { self.new.state ≡ drawn self.old.state }
    {
        self.state = self
            .state
            .wrapping_mul(6364136223846793005)
            .wrapping_add(1442695040888963407);
        (self.state / (1 << 33) % 256) as u8
    }

    /// The bytes that a handshake's key is made of.
    pub(crate) fn nonce(&mut self) -> [u8; 16] {
        let mut bytes = [0u8; 16];
        for i in 0..16 {
            bytes[i] = self.draw();
        }
        bytes
    }
}

impl MaskKeys for Masks {
    fn next_key(&mut self) -> [u8; 4] {
        [self.draw(), self.draw(), self.draw(), self.draw()]
    }
}
