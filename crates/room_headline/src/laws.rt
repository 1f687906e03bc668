//! What follows from the definitions alone.
ghost use Rattle.room_headline.specs.Headline.{EverywhereHolds};
ghost use Rattle.room_headline.specs.Recovering.{BrokenIsFound, EachIsFound, ReplayIsFound};

use room_fuse::Stopping;

/// At every line of every run from a valid state, over lines that a schedule can spell: the log is valid, only grows,
/// and the server stands where it leads; each batch of a client is in it once, whole and in order, and it holds what
/// was acknowledged; a client shows the log's tree with what is unacknowledged on top; and where it takes back a batch
/// that nothing else touched, the tree is as if neither had been.
#[tactic(auto, using(crate::proofs::Everywhere::everywhere))]
pub fn holds_everywhere()
    ensures { EverywhereHolds }
{}

/// Where lines were run one after the other, whatever a stop leaves of the disk, at any moment from their beginning to
/// their end, stands for the state of a valid log: that of the run after some of the lines, with a first part of what
/// the next one tries to add. So it does since a replay opened the room, whether it came to its end or ended within a
/// line.
pub fn each_is_found<D: Stopping>()
    ensures along { EachIsFound D.inner_images }
    ensures ended { ReplayIsFound D.inner_images }
    ensures broke { BrokenIsFound D.inner_images }
{}
