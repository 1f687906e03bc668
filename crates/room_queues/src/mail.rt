//! What waits: texts that go up, and texts and closes that go down.
ghost use Rattle.std.specs.Prelude.{◌≡◌, true};
ghost use Rattle.room_msg.specs.Frame.{client_frame_in};
ghost use Rattle.room_model.specs.World.{is_close};
ghost use Rattle.room_queues.specs.Seen.{outbound_in, IsMail};

use room_disk::Disk;
use room_json::Text;
use std::marker::{Model, PhantomData};

/// A text that goes up. Contracts see what the server reads of it.
#[derive(Drop)]
pub struct Inbound {
    text: Text,
}

impl Model for Inbound {
    ghost use Rattle.room_model.specs.Server.{Inbound as Frame};
    ghost use Rattle.room_msg.specs.Frame.{client_frame_in};
    ghost use Rattle.room_queues.specs.Codes.{inbound_code};

    ghost Value = { Frame };

    ghost coded = { inbound_code };

    ghost view = { λ i. client_frame_in i.text };
}

impl Inbound {
    /// Any text.
    pub fn new(text: Text) -> Inbound
        ensures { result ≡ client_frame_in text }
    {
        Inbound { text }
    }

    /// The text that was put in.
    pub fn into_text(self) -> Text
        ensures { client_frame_in result ≡ self }
    {
        let Inbound { text } = self;
        text
    }
}

/// What the server sends on a connection: the text of a frame, or a close with its code and text.
#[derive(Drop)]
pub enum Mail {
    Frame(Text),
    Close(u16, Text),
}

/// What goes down. Contracts see what a client reads of it. That it reads as it was meant is known where the server's disk
/// tells what it holds: of another nothing is known that the server sends.
#[derive(Drop)]
pub struct Outbound<D: Disk> {
    mail: Mail,
    disk: PhantomData<D>,
}

impl<D: Disk> Model for Outbound<D> {
    ghost use Rattle.std.specs.Prelude.{◌≡◌, true};
    ghost use Rattle.room_model.specs.Server.{Outbound as Sent};
    ghost use Rattle.room_queues.specs.Codes.{outbound_code};
    ghost use Rattle.room_queues.specs.Seen.{outbound_in, IsMail};

    ghost Value = { Sent };

    ghost coded = { outbound_code };

    ghost view = { λ o. outbound_in o.mail };

    ghost invariant = { λ o. D.tells ≡ true → D.stops ≡ true → IsMail o.mail };
}

impl<D: Disk> Outbound<D> {
    /// What the server sends. The text of a frame is the pong, or that of one message, and is read as such.
    pub fn new(mail: Mail) -> Outbound<D>
        requires { D.tells ≡ true → D.stops ≡ true → IsMail mail }
        ensures { result ≡ outbound_in mail }
    {
        Outbound {
            mail,
            disk: PhantomData,
        }
    }

    /// What was put in.
    pub fn into_mail(self) -> Mail
        ensures seen { outbound_in result ≡ self }
        ensures mail { D.tells ≡ true → D.stops ≡ true → IsMail result }
    {
        let Outbound { mail, .. } = self;
        mail
    }

    /// Whether the connection is closed by it.
    pub fn is_close(&self) -> bool
        ensures { result ≡ is_close self.now }
    {
        matches!(self.mail, Mail::Close(..))
    }
}
