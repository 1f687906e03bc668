//! What follows from the rules of a room: laws of every run.
//!
//! Over all lists of lines, from any opening state. A client is undisturbed where no connection but its own was ever
//! given its actor; the laws on clients speak of undisturbed ones.
#![tactic(auto)]

mod accounts;
mod runs;
mod samples;

pub use accounts::{history_bounded, keeps_clocks, keeps_open, keeps_sound, undoes_alone};
pub use runs::{
    at_every_moment, each_once, each_reversed, each_served, each_shows, each_taken, each_undo,
    each_undo_alone, each_undone, follows_events, log_grows, report_in_order, runs_singly,
    sound_accounts, sound_worlds, valid_run,
};
pub use samples::{alone_is_met, premises_are_met, undo_is_met};
