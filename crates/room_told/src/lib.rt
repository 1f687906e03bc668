//! The laws of notices: applied to the view before, they give the view after.
#![tactic(auto)]

mod accounts;
mod laws;

pub use accounts::screens_follow;
pub use laws::notices_show;
