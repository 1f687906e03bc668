//! Which connections something goes to.
ghost use Rattle.std.specs.Prelude.{◌≡◌};
ghost use Rattle.room_links.specs.Links as links;

use crate::link::Link;

/// Which connections something goes to.
#[derive(Clone, Copy, Debug, PartialEq, Eq)]
pub enum Whom {
    /// Those with a session, but this one.
    Others(u64),
    /// Those that have fetched.
    Fetched,
    /// Those of an actor's session.
    Holder(u32),
}

/// Whether it goes to this connection.
pub fn goes_to(whom: Whom, conn: u64, link: &Link) -> bool
    ensures { result ≡ links.goes_to whom conn link.now }
{
    match whom {
        Whom::Others(own) => conn != own && link.actor().is_some(),
        Whom::Fetched => link.has_fetched(),
        Whom::Holder(actor) => link.is_of(actor),
    }
}
