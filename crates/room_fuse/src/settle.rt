//! How a fuse is made, armed and settled.
ghost use Rattle.std.specs.Prelude.{◌≡◌, ◌≤◌, [], ℕ, List, length, reverse, true, false, OnOk, OnErr, IsErrOf, refl};
ghost use Rattle.room_edge.specs.Causes.{Rose};
ghost use Rattle.room_fuse.specs.Held.{ready, Others};
ghost use Rattle.room_fuse.specs.Past.{left_through};
ghost use Rattle.room_fuse.specs.Mirrors.{settled_by};
ghost use Rattle.room_disk.specs.declared.disk.Stop.TheVariants.{New};
ghost use Rattle.room_fuse.specs.Laws.{MirroredTo, mirrored_same, mirrored_then, inner_here, bare_left, bare_images};

use crate::fuse::Fused;
use crate::held::{Held, make_ready};
use crate::pass::pass_whole;
use crate::past::remember;
use crate::stopping::Stopping;
use room_disk::{Disk, DiskFault, Stop};
use std::alloc::Global;

/// Makes what is held back what settling writes through.
fn prepare(alloc: Global, held: &mut Vec<Held>, fired: bool, how: Stop)
    ensures { held.new.items ≡ ready (settled_by fired how) held.old.items }
{
    if fired {
        make_ready(alloc, held, how);
    } else {
        held.clear();
    }
}

impl<D: Disk> Stopping for Fused<D> {
    ghost inner_seen = { λ d. D.seen d.inner };

    ghost inner_moment = { λ d. D.moment d.inner };

    ghost inner_images = { λ d m f c. D.images d.inner m f c };

    ghost armed = { λ d. d.armed };

    ghost way = { λ d. d.how };

    ghost ends = { λ d. settled_by d.fired d.how };

    ghost writes = { λ d f. Others f (ready (settled_by d.fired d.how) d.held.items) → ⊥ };

    ghost plain = { λ d. (d.held.items ≡ []) × (d.armed ≡ 0) × (d.fired ≡ false) };

    ghost went = { λ a b. (D.came a.inner b.inner)
        × (D.tells ≡ true → MirroredTo D.images D.moment a.past.items a.inner a.held.items
        b.past.items b.inner b.held.items) };

    ghost went_same = { λ a. (
      D.came_same a.inner,
      λ told. mirrored_same D.images D.moment a.past.items a.inner a.held.items,
    ) };

    ghost went_then = { λ a b c first second. (
      D.came_then a.inner b.inner c.inner first.0 second.0,
      λ told. mirrored_then D.images D.moment a.past.items a.inner a.held.items b.past.items b.inner b.held.items
          c.past.items c.inner c.held.items (first.1 told) (second.1 told),
    ) };

    ghost went_by = { λ a b came. (came.0, came.2) };

    ghost mirrors = { λ a b told went. went.1 told };

    ghost inner_is_image = { λ d f c told left.
        inner_here D.images D.moment d.past.items d.inner d.held.items f c left };

    ghost counts = { λ a b came. came.1 };

    ghost ends_by = { λ d. refl };

    ghost plain_is_bare = { λ d plain. record {
      running = plain.2;
      unarmed = plain.1;
      reads = λ f. bare_left (D.seen d.inner) d.held.items plain.0 New f;
      left = λ how f. bare_left (D.seen d.inner) d.held.items plain.0 how f;
      images_left = λ f c left. bare_images D.images D.moment d.past.items d.inner d.held.items plain.0 f c left;
    } };

    fn arm(&mut self, calls: u64, how: Stop) {
        self.armed = calls;
        self.how = how;
    }

    fn left(&self) -> u64 {
        self.armed
    }

    fn fired(&self) -> bool {
        Fused::fired(self)
    }

    fn settle(&mut self) -> Result<(), DiskFault> {
        remember(&mut self.past, &self.inner, &self.held)?;
        prepare(self.alloc, &mut self.held, self.fired, self.how);
        pass_whole(&mut self.inner, &mut self.held)?;
        self.armed = 0;
        self.fired = false;
        Ok(())
    }
}

impl<D: Disk> Fused<D> {
    /// A plain disk over the inner one.
    pub fn new(alloc: Global, inner: D) -> Fused<D>
        ensures inner { result.inner ≡ inner }
        ensures plain { ⟦<Fused<D> as Stopping>⟧.plain result }
        ensures moment { ⟦<Fused<D> as Disk>⟧.moment result ≡ 0 }
        ensures faults { ⟦<Fused<D> as Disk>⟧.faults result ≡ D.faults inner }
    {
        Fused {
            inner,
            alloc,
            held: Vec::new(alloc),
            past: Vec::new(alloc),
            armed: 0,
            how: Stop::Old,
            fired: false,
            refused: 0,
        }
    }

    /// Lets the call of that number from now on, of the writes, cuts and syncs, be the stop.
    pub fn arm(&mut self, calls: u64, how: Stop)
        requires { 1 ≤ calls }
        ensures armed { self.new.armed ≡ calls }
        ensures how { self.new.how ≡ how }
        ensures inner { self.new.inner ≡ self.old.inner }
        ensures held { self.new.held ≡ self.old.held }
        ensures past { self.new.past ≡ self.old.past }
        ensures fired { self.new.fired ≡ self.old.fired }
        ensures refused { self.new.refused ≡ self.old.refused }
    {
        self.armed = calls;
        self.how = how;
    }

    /// Whether it has stopped.
    pub fn fired(&self) -> bool
        ensures { result ≡ self.now.fired }
    {
        self.fired
    }

    /// Ends the stop in its way, or, where none came, drops what is held back. It syncs each file that it wrote to, and
    /// disarms.
    pub fn settle(&mut self) -> Result<(), DiskFault>
        ensures left { D.tells ≡ true → OnOk result ((f : ℕ) → D.seen self.new.inner f
            ≡ left_through D.seen self.old.inner self.old.held.items (settled_by self.old.fired self.old.how) f) }
        ensures plain { OnOk result (⟦<Fused<D> as Stopping>⟧.plain self.new) }
        ensures still { OnErr result (self.new.fired ≡ self.old.fired) }
        // A refused call leaves it armed, and no call lowers the count of its faults.
        ensures count { OnErr result (self.new.armed ≡ self.old.armed) }
        ensures later { ⟦<Fused<D> as Disk>⟧.faults self.old ≤ ⟦<Fused<D> as Disk>⟧.faults self.new }
        ensures went { ⟦<Fused<D> as Stopping>⟧.went self.old self.new }
        ensures failed { IsErrOf result DiskFault.Failed → Rose (D.faults self.old.inner) (D.faults self.new.inner) }
    {
        Stopping::settle(self)
    }
}
