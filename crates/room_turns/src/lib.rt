//! A room served over a hub: events are gathered into turns, each turn is committed before anything of it is sent.
#![tactic(auto)]

mod ended;
mod fault;
mod gathering;
mod serving;
mod trying;
mod turning;

pub use ended::Ended;
pub use fault::ServeFault;
pub use serving::serve;
