//! A disk in memory that never fails.
ghost use Rattle.std.specs.Prelude.{◌≡◌, [], ℕ, List, true, false, length};
ghost use Rattle.room_disk.specs.Files.{small_seen};
ghost use Rattle.room_disk.specs.Record.{seen_of, images_of, Extends, extends_same, extends_then, seen_may_be_left};

use crate::change::FileChange;
use crate::disk::{Disk, DiskFault};
use crate::medium::Medium;
use std::alloc::Global;

/// Files in memory, and a record of the calls on them. It answers `Memory` alone, past the bound of a file too.
#[derive(Drop)]
pub struct SureDisk {
    medium: Medium,
}

impl SureDisk {
    /// A disk of empty files.
    pub fn new(alloc: Global) -> SureDisk
        ensures empty { (f : ℕ) → ⟦<SureDisk as Disk>⟧.seen result f ≡ [] }
        ensures images { (f : ℕ) (c : List ℕ) → ⟦<SureDisk as Disk>⟧.images result 0 f c → c ≡ [] }
        ensures moment { ⟦<SureDisk as Disk>⟧.moment result ≡ 0 }
    {
        SureDisk {
            medium: Medium::new(alloc),
        }
    }
}

impl Disk for SureDisk {
    ghost tells = { true };

    ghost may_run_out = { true };

    ghost seen = { λ d f. seen_of d.medium.entries.items f };

    ghost moment = { λ d. length d.medium.entries.items };

    ghost images = { λ d m f c. images_of d.medium.entries.items m f c };

    ghost faults = { λ d. 0 };

    ghost inner_faults = { λ d. 0 };

    ghost stops = { false };

    ghost stopped = { λ d. false };

    ghost leaves = { λ d how f. seen_of d.medium.entries.items f };

    ghost came = { λ a b. Extends a.medium.entries.items b.medium.entries.items };

    ghost came_same = { λ a. extends_same a.medium.entries.items };

    ghost came_then = { λ a b c first second.
        extends_then a.medium.entries.items b.medium.entries.items c.medium.entries.items first second };

    ghost seen_is_small = { λ d f told.
        small_seen d.medium.files (seen_of d.medium.entries.items) d.medium.kept d.medium.small f };

    ghost seen_is_image = { λ d f told. seen_may_be_left d.medium.entries.items f };

    ghost left_is_image = { λ d how f told. seen_may_be_left d.medium.entries.items f };

    fn len(&mut self, file: u32) -> Result<u64, DiskFault> {
        Ok(self.medium.len(file))
    }

    fn read(&mut self, file: u32, at: u64, into: &mut [u8]) -> Result<(), DiskFault> {
        self.medium.read(file, at, into);
        Ok(())
    }

    fn write_at(&mut self, file: u32, at: u64, bytes: &[u8]) -> Result<(), DiskFault> {
        self.medium.write(file, at, bytes)
    }

    fn cut(&mut self, file: u32, len: u64) -> Result<(), DiskFault> {
        self.medium.change(file, FileChange::Cut(len))
    }

    fn sync(&mut self, file: u32) -> Result<(), DiskFault> {
        self.medium.sync(file)
    }
}
