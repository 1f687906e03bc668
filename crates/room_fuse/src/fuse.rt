//! A disk that holds writes and cuts back from an inner disk, and stops at a call.
ghost use Rattle.std.specs.Prelude.{◌≡◌, ◌≤◌, ◌<◌, ◌+◌, ◌-◌, ◌^◌, ◌++◌, ◌∷◌, [], ℕ};
ghost use Rattle.std.specs.Prelude.{length, reverse, OnOk, OnErr, IfErr, IsErrOf, true, false, vec_len, vec_capacity};
ghost use Rattle.room_edge.specs.Causes.{Rose};
ghost use Rattle.room_disk.specs.Changes.{changed, ChangedInPart, place, reach};
ghost use Rattle.room_disk.specs.Stops.{IsDone, Settles};
ghost use Rattle.room_fuse.specs.Held.{Fits, StaysBelow, settled_change};
ghost use Rattle.room_fuse.specs.Past.{through, left_through, StepsThrough};
ghost use Rattle.room_fuse.specs.Mirrors.{CountsDownBetween, IsCounted};
ghost use Rattle.room_fuse.specs.Laws.{told_fits_prop, below_prop};

use crate::held::Held;
use crate::past::{Mark, remember};
use room_disk::{Disk, DiskFault, FileChange, Stop};
use std::alloc::Global;

/// A disk over an inner one. Writes and cuts of a file are held back until it is synced. Once it was armed, a call is
/// the stop: from there on every call fails, until the stop is settled.
#[derive(Drop)]
pub struct Fused<D: Disk> {
    pub inner: D,
    pub(crate) alloc: Global,
    pub(crate) held: Vec<Held>,
    pub(crate) past: Vec<Mark<D>>,
    pub(crate) armed: u64,
    pub(crate) how: Stop,
    pub(crate) fired: bool,
    pub(crate) refused: u64,
    ghost fits: { D.tells ≡ true → Fits (D.seen inner) (reverse held.items) } by { told_fits_prop D.tells
        (D.seen inner) (reverse held.items) },
    ghost below: { StaysBelow held.items } by { below_prop held.items },
}

/// Lets a call through, but for one behind the stop.
pub(crate) fn admit(fired: bool, refused: &mut u64) -> Result<(), DiskFault>
    ensures ok { OnOk result ((fired ≡ false) × (refused.new ≡ refused.old)) }
    ensures err { IfErr result (λ e. (e ≡ DiskFault.Failed) × (fired ≡ true)) }
    ensures rose { OnErr result (Rose refused.old refused.new) }
    ensures later { refused.old ≤ refused.new }
{
    if fired {
        *refused = refused.saturating_add(1);
        return Err(DiskFault::Failed);
    }
    Ok(())
}

/// Counts a call down, and refuses it where it is the stop.
pub(crate) fn count_down(
    armed: &mut u64,
    fired: &mut bool,
    refused: &mut u64,
) -> Result<(), DiskFault>
    requires { fired.old ≡ false }
    ensures counted { IsCounted armed.old armed.new fired.new }
    ensures ok { OnOk result ((fired.new ≡ false) × (refused.new ≡ refused.old)) }
    ensures err { IfErr result (λ e. (e ≡ DiskFault.Failed) × (fired.new ≡ true)) }
    ensures rose { OnErr result (Rose refused.old refused.new) }
    ensures later { refused.old ≤ refused.new }
{
    if *armed == 1 {
        *armed = 0;
        *fired = true;
        *refused = refused.saturating_add(1);
        return Err(DiskFault::Failed);
    }
    *armed = armed.saturating_sub(1);
    Ok(())
}

fn add(calls: &mut Vec<Held>, file: u32, change: FileChange)
    requires { vec_len calls.old < vec_capacity calls.old }
    ensures { calls.new.items ≡ calls.old.items ++ record { file = file; change = change } ∷ [] }
{
    calls.push(Held { file, change }).unwrap();
}

impl<D: Disk> Fused<D> {
    /// Holds a change back. The one at which it stops is held back too.
    pub(crate) fn hold(&mut self, file: u32, change: FileChange) -> Result<(), DiskFault>
        requires place { D.tells ≡ true
            → place change ≤ length (through D.seen self.old.inner self.old.held.items file) }
        requires reach { reach change < 2 ^ 62 }
        ensures done { OnOk result (through D.seen self.new.inner self.new.held.items file
            ≡ changed change (through D.seen self.old.inner self.old.held.items file)) }
        ensures counted { OnOk result (length self.new.past.items ≡ length self.old.past.items + 1) }
        ensures steps { D.tells ≡ true → StepsThrough D.seen D.moment D.images file (ChangedInPart change)
            self.old.past.items self.old.inner self.old.held.items
            self.new.past.items self.new.inner self.new.held.items }
        ensures held { self.old.fired ≡ false → IsDone result self.new.fired → Settles file (settled_change change)
            (left_through D.seen self.old.inner self.old.held.items)
            (left_through D.seen self.new.inner self.new.held.items) }
        ensures counts { CountsDownBetween self.old.fired self.old.armed (length self.old.past.items) self.old.how
            self.new.fired self.new.armed (length self.new.past.items) self.new.how }
        ensures inner { self.new.inner ≡ self.old.inner }
        ensures later { self.old.refused ≤ self.new.refused }
        ensures failed { IsErrOf result DiskFault.Failed
            → (self.new.fired ≡ true) × Rose self.old.refused self.new.refused }
        // It meets the stop.
        ensures fails { self.new.fired ≡ true → IsErrOf result DiskFault.Failed }
        ensures at_stop { self.old.fired ≡ false → self.new.fired ≡ true
            → length self.new.past.items ≡ length self.old.past.items + 1 }
        ensures stays { self.old.fired ≡ true → self.new.fired ≡ true }
        ensures behind { self.old.fired ≡ true → self.new.held ≡ self.old.held }
    {
        admit(self.fired, &mut self.refused)?;
        self.held.reserve(1)?;
        remember(&mut self.past, &self.inner, &self.held)?;
        add(&mut self.held, file, change);
        count_down(&mut self.armed, &mut self.fired, &mut self.refused)
    }
}
