//! The calls of a fuse.
ghost use Rattle.std.specs.Prelude.{◌≡◌, ◌+◌, ◌^◌, ◌≤◌, ℕ, List, length, reverse, true};
ghost use Rattle.room_fuse.specs.Past.{through, left_through, images_at};
ghost use Rattle.room_fuse.specs.Mirrors.{CountsDownBetween};
ghost use Rattle.room_fuse.specs.Laws.{content_below, below_reverse, content_now, settled_now, counts_same};
ghost use Rattle.room_fuse.specs.Laws.{counts_then, MirroredTo, mirrored_same, mirrored_then};

use crate::fuse::{Fused, admit, count_down};
use crate::load::{length_of, read_over};
use crate::pass::pass_all;
use crate::past::remember;
use room_disk::{Disk, DiskFault, FileChange, is_past_bound};

impl<D: Disk> Disk for Fused<D> {
    ghost tells = { D.tells };

    ghost may_run_out = { true };

    ghost seen = { λ d. through D.seen d.inner d.held.items };

    ghost moment = { λ d. length d.past.items };

    ghost images = { λ d. images_at D.images D.moment d.past.items d.inner d.held.items };

    ghost faults = { λ d. D.faults d.inner + d.refused };

    ghost inner_faults = { λ d. D.faults d.inner };

    ghost stops = { true };

    ghost stopped = { λ d. d.fired };

    ghost leaves = { λ d. left_through D.seen d.inner d.held.items };

    ghost came = { λ a b. (D.came a.inner b.inner)
        × CountsDownBetween a.fired a.armed (length a.past.items) a.how b.fired b.armed (length b.past.items) b.how
        × (D.tells ≡ true → MirroredTo D.images D.moment a.past.items a.inner a.held.items
        b.past.items b.inner b.held.items) };

    ghost came_same = { λ a. (
      D.came_same a.inner,
      counts_same a.fired a.armed (length a.past.items) a.how,
      λ told. mirrored_same D.images D.moment a.past.items a.inner a.held.items,
    ) };

    ghost came_then = { λ a b c first second. (
      D.came_then a.inner b.inner c.inner first.0 second.0,
      counts_then a.fired a.armed (length a.past.items) a.how b.fired b.armed (length b.past.items) b.how
          c.fired c.armed (length c.past.items) c.how first.1 second.1,
      λ told. mirrored_then D.images D.moment a.past.items a.inner a.held.items b.past.items b.inner b.held.items
          c.past.items c.inner c.held.items (first.2 told) (second.2 told),
    ) };

    ghost seen_is_small = { λ d f told. content_below (D.seen d.inner) (reverse d.held.items) (d.fits told)
        (below_reverse d.held.items d.below) (λ n. D.seen_is_small d.inner n told) f };

    ghost seen_is_image = { λ d f told. content_now D.images D.moment D.seen d.past.items d.inner d.held.items
        (d.fits told) (λ n. D.seen_is_image d.inner n told) f };

    ghost left_is_image = { λ d how f told. settled_now D.images D.moment D.seen d.past.items d.inner d.held.items
        (d.fits told) (λ n. D.seen_is_image d.inner n told) how f };

    fn len(&mut self, file: u32) -> Result<u64, DiskFault> {
        admit(self.fired, &mut self.refused)?;
        length_of(&mut self.inner, self.held.as_slice(), file)
    }

    fn read(&mut self, file: u32, at: u64, into: &mut [u8]) -> Result<(), DiskFault> {
        admit(self.fired, &mut self.refused)?;
        read_over(
            self.alloc,
            &mut self.inner,
            self.held.as_slice(),
            file,
            at,
            into,
        )
    }

    fn write_at(&mut self, file: u32, at: u64, bytes: &[u8]) -> Result<(), DiskFault> {
        admit(self.fired, &mut self.refused)?;
        if is_past_bound(at, bytes) {
            return Err(DiskFault::Memory);
        }
        let change = FileChange::writing(self.alloc, at, bytes)?;
        self.hold(file, change)
    }

    fn cut(&mut self, file: u32, len: u64) -> Result<(), DiskFault> {
        self.hold(file, FileChange::Cut(len))
    }

    fn sync(&mut self, file: u32) -> Result<(), DiskFault> {
        admit(self.fired, &mut self.refused)?;
        remember(&mut self.past, &self.inner, &self.held)?;
        count_down(&mut self.armed, &mut self.fired, &mut self.refused)?;
        pass_all(&mut self.inner, &mut self.held, file)
    }
}
