//! The journal of a room: records behind one another. A closed gate stands behind the last, beyond any stop before
//! anything is written behind it.
ghost use Rattle.std.specs.Prelude.{◌≡◌, ◌≤◌, ◌<◌, ◌^◌, ◌+◌, ◌-◌, ◌++◌, ◌∷◌, [], ℕ, List, length};
ghost use Rattle.std.specs.Prelude.{OnOk, IfOk, IfErr, IsErr, ◌⊎◌, true, false};
ghost use Rattle.room_disk.specs.Model.{Only, OnFile, Within};
ghost use Rattle.room_journal.specs.Files.{says, reading, last_generation};
ghost use Rattle.room_journal.specs.Rest.{place_at, room, other_of, grown, renewed, body_of};
ghost use Rattle.room_journal.specs.Rest.{IsAtRest, IsReady, IsReadyFile, IsRenewed};
ghost use Rattle.room_journal.specs.Appends.{Appends, AppendsOrStops, IsClean};
ghost use Rattle.room_journal.specs.Found.{IsFound, HasShape};
ghost use Rattle.room_journal.specs.Causes.{IsFault, HasCauses, HasDiskCause};

use crate::down::put_down;
use crate::fault::JournalFault;
use crate::fresh::{make_anew, sync_twice};
use crate::heading::MARK_TWO;
use crate::reading::{Found, read_files};
use room_disk::{Disk, Stop};
use room_json::{Bytes, NoMemory};
use std::alloc::Global;
use std::marker::Model;

/// Where records are added: which of the two files counts, its generation, and the offset of its last gate. After an
/// `Err` of `append` or `renew` the files have to be read again.
#[derive(Drop)]
pub struct Journal {
    base: u32,
    file: u32,
    generation: u64,
    end: u64,
}

impl Model for Journal {
    ghost use Rattle.room_journal.specs.Rest.{Place, place_at};

    ghost Value = { Place };

    ghost view = { λ j. place_at j.base j.file j.generation j.end };
}

impl Journal {
    /// The journal of this place.
    pub fn at(base: u32, file: u32, generation: u64, end: u64) -> Journal
        ensures { result ≡ place_at base file generation end }
    {
        Journal {
            base,
            file,
            generation,
            end,
        }
    }

    /// Puts both files as they read beyond any stop, by one call each, and reads them. Files are damaged exactly where
    /// the mark or the generation of an open one isn't whole or is wrong, where two open ones have one generation, or
    /// where the snapshot of the one that counts isn't whole.
    pub fn recover<D: Disk>(alloc: Global, disk: &mut D, base: u32) -> Result<Found, JournalFault>
        requires { base + 1 < 2 ^ 32 }
        ensures shape { IfOk result (λ found. HasShape base found) }
        ensures found { D.tells ≡ true → IfOk result (λ found. IsFound base
            (reading base (D.seen disk.old base) (D.seen disk.old (base + 1))) found) }
        ensures fault { D.tells ≡ true → IfErr result (λ e. (e ≡ JournalFault.Disk)
            ⊎ IsFault (reading base (D.seen disk.old base) (D.seen disk.old (base + 1))) e) }
        // The disk as it was behind the two syncs.
        ensures through { D.tells ≡ true → OnOk result
            ((mid : D) × D.came disk.old mid × D.came mid disk.new × (D.moment mid ≡ D.moment disk.old + 2)) }
        ensures same { D.tells ≡ true → (f : ℕ) → D.seen disk.new f ≡ D.seen disk.old f }
        ensures first { D.tells ≡ true
            → OnOk result (Only (D.seen disk.old base) (D.images disk.new (D.moment disk.new) base)) }
        ensures second { D.tells ≡ true
            → OnOk result (Only (D.seen disk.old (base + 1)) (D.images disk.new (D.moment disk.new) (base + 1))) }
        ensures counted { D.tells ≡ true → OnOk result (D.moment disk.new ≡ D.moment disk.old + 2) }
        ensures most { D.tells ≡ true → D.moment disk.new ≤ D.moment disk.old + 2 }
        ensures within { D.tells ≡ true
            → Within D.moment D.images disk.old disk.new (D.images disk.old (D.moment disk.old)) }
        ensures stop_fails { D.stopped disk.new ≡ true → IsErr result }
        ensures clean { D.tells ≡ true → D.stops ≡ true → D.stopped disk.old ≡ false
            → IsClean D.seen D.leaves disk.old → OnOk result (IsClean D.seen D.leaves disk.new) }
        ensures came { D.came disk.old disk.new }
        ensures cause { HasDiskCause D.faults D.inner_faults D.stopped disk.old disk.new result }
    {
        read_files(alloc, disk, base)
    }

    /// The bytes of a record behind its gate.
    pub fn ready(alloc: Global, body: &[u8]) -> Result<Bytes, NoMemory>
        ensures ready { IfOk result (λ v. IsReady v × (body_of v ≡ body.now)) }
    {
        let Ok(size) = u32::try_from(body.len()) else {
            return Err(NoMemory);
        };
        let mut bytes = Vec::new(alloc);
        bytes.extend_from_slice(&size.to_be_bytes())?;
        bytes.extend_from_slice(body)?;
        bytes.push(0)?;
        Ok(Bytes::from_vec(bytes))
    }

    /// Adds a record, by four calls: its bytes behind the last gate, a sync, an open gate there, a sync. Takes no
    /// memory.
    pub fn append<D: Disk>(&mut self, disk: &mut D, ready: &[u8]) -> Result<(), JournalFault>
        requires small { self.old.end < 2 ^ 62 }
        requires ready { IsReady ready.now }
        requires rests { D.tells ≡ true
            → IsAtRest (D.seen disk.old self.old.file) self.old.generation self.old.end }
        requires durable { D.tells ≡ true
            → Only (D.seen disk.old self.old.file) (D.images disk.old (D.moment disk.old) self.old.file) }

        ensures small { OnOk result (self.new.end < 2 ^ 62) }
        ensures place { OnOk result (self.new ≡ grown self.old ready.now) }
        ensures appends { D.tells ≡ true
            → Appends D.seen D.moment D.images self.old ready.now disk.old disk.new result }
        ensures stop { D.tells ≡ true → D.stops ≡ true → D.stopped disk.old ≡ false
            → AppendsOrStops D.seen D.moment D.stopped D.leaves self.old ready.now disk.old disk.new result }
        ensures came { D.came disk.old disk.new }
        ensures cause { HasCauses D.may_run_out D.faults D.inner_faults D.stopped disk.old disk.new result }
    {
        let result = put_record(disk, self.file, self.end, ready);
        if result.is_ok() {
            self.end += ready.len() as u64;
        }
        result
    }

    /// The file that doesn't count.
    fn other(&self) -> u32
        requires { self.now.base + 1 < 2 ^ 32 }
        ensures { result ≡ other_of self.now.base self.now.file }
    {
        if self.file == self.base {
            return self.base + 1;
        }
        self.base
    }

    /// The bytes of a file of the next generation behind its gate; none where there is no next generation.
    pub fn ready_file(&self, alloc: Global, snapshot: &[u8]) -> Result<Bytes, NoMemory>
        ensures ready { IfOk result (λ v. IsReadyFile self.now.generation snapshot.now v) }
        ensures none { self.now.generation ≡ last_generation → IfOk result (λ v. v ≡ []) }
    {
        if self.generation == u64::MAX {
            return Ok(Bytes::new(alloc));
        }
        let mut bytes = Vec::new(alloc);
        bytes.extend_from_slice(&MARK_TWO.to_be_bytes())?;
        bytes.extend_from_slice(&(self.generation + 1).to_be_bytes())?;
        bytes.extend_from_slice(&(snapshot.len() as u64).to_be_bytes())?;
        bytes.extend_from_slice(snapshot)?;
        bytes.push(0)?;
        Ok(Bytes::from_vec(bytes))
    }

    /// Makes a file of the next generation in the file that doesn't count, by six calls; at the last generation they
    /// are six syncs of that file, and nothing changes. Takes no memory.
    pub fn renew<D: Disk>(&mut self, disk: &mut D, ready: &[u8]) -> Result<(), JournalFault>
        requires base { self.old.base + 1 < 2 ^ 32 }
        requires ready { length ready.now < 2 ^ 62 }

        ensures bound { self.old.generation ≤ last_generation }
        ensures made { D.tells ≡ true → self.old.generation < last_generation → (s : List ℕ)
            → IsReadyFile self.old.generation s ready.now
            → OnOk result
            (says (D.seen disk.new (other_of self.old.base self.old.file)) ≡ room (self.old.generation + 1) s []) }
        ensures kept { D.tells ≡ true → self.old.generation ≡ last_generation → (f : ℕ)
            → D.seen disk.new f ≡ D.seen disk.old f }
        ensures place { OnOk result (self.new ≡ renewed self.old ready.now) }
        ensures base { self.new.base ≡ self.old.base }
        ensures durable { D.tells ≡ true → (o : ℕ) → o ≡ other_of self.old.base self.old.file
            → OnOk result (Only (D.seen disk.new o) (D.images disk.new (D.moment disk.new) o)) }
        ensures counted { D.tells ≡ true → OnOk result (D.moment disk.new ≡ D.moment disk.old + 6) }
        ensures most { D.tells ≡ true → D.moment disk.new ≤ D.moment disk.old + 6 }
        ensures others { D.tells ≡ true → (f : ℕ) → (f ≡ other_of self.old.base self.old.file → ⊥)
            → D.seen disk.new f ≡ D.seen disk.old f }
        // At each moment of the call each image of that file says what it said, or is closed, or is the new one.
        ensures any_moment { D.tells ≡ true → (s : List ℕ) (o : ℕ) → o ≡ other_of self.old.base self.old.file
            → IsReadyFile self.old.generation s ready.now
            → Only (D.seen disk.old o) (D.images disk.old (D.moment disk.old) o)
            → Within D.moment D.images disk.old disk.new
            (OnFile o (IsRenewed (says (D.seen disk.old o)) self.old.generation s)
            (D.images disk.old (D.moment disk.old))) }
        ensures stop_fails { D.stopped disk.new ≡ true → IsErr result }
        ensures clean { D.tells ≡ true → D.stops ≡ true → D.stopped disk.old ≡ false
            → IsClean D.seen D.leaves disk.old → OnOk result (IsClean D.seen D.leaves disk.new) }
        ensures came { D.came disk.old disk.new }
        ensures cause { HasCauses D.may_run_out D.faults D.inner_faults D.stopped disk.old disk.new result }
    {
        let other = self.other();
        if self.generation == u64::MAX {
            return sync_six(disk, other);
        }
        make_anew(disk, other, ready)?;
        self.file = other;
        self.generation += 1;
        self.end = ready.len() as u64;
        Ok(())
    }
}

/// Adds a record behind the gate at this offset.
fn put_record<D: Disk>(disk: &mut D, file: u32, end: u64, ready: &[u8]) -> Result<(), JournalFault>
    requires small { end < 2 ^ 62 }
    requires ready { IsReady ready.now }
    requires rests { D.tells ≡ true → (g : ℕ) × IsAtRest (D.seen disk.old file) g end }
    requires durable { D.tells ≡ true → Only (D.seen disk.old file) (D.images disk.old (D.moment disk.old) file) }

    ensures small { OnOk result (end + length ready.now < 2 ^ 62) }
    ensures appends { D.tells ≡ true → (b g : ℕ) → IsAtRest (D.seen disk.old file) g end
        → Appends D.seen D.moment D.images (place_at b file g end) ready.now disk.old disk.new result }
    ensures stop { D.tells ≡ true → D.stops ≡ true → D.stopped disk.old ≡ false
        → (b g : ℕ) → IsAtRest (D.seen disk.old file) g end
        → AppendsOrStops D.seen D.moment D.stopped D.leaves (place_at b file g end) ready.now disk.old disk.new result }
    ensures came { D.came disk.old disk.new }
    ensures cause { HasCauses D.may_run_out D.faults D.inner_faults D.stopped disk.old disk.new result }
{
    put_down(disk, file, end + 1, ready)?;
    put_down(disk, file, end, &[1])?;
    Ok(())
}

/// Puts the file as it reads beyond any stop, by six calls.
fn sync_six<D: Disk>(disk: &mut D, file: u32) -> Result<(), JournalFault>
    ensures same { D.tells ≡ true → (f : ℕ) → D.seen disk.new f ≡ D.seen disk.old f }
    ensures durable { D.tells ≡ true
        → OnOk result (Only (D.seen disk.new file) (D.images disk.new (D.moment disk.new) file)) }
    ensures counted { D.tells ≡ true → OnOk result (D.moment disk.new ≡ D.moment disk.old + 6) }
    ensures most { D.tells ≡ true → D.moment disk.new ≤ D.moment disk.old + 6 }
    ensures within { D.tells ≡ true → Within D.moment D.images disk.old disk.new
        (D.images disk.old (D.moment disk.old)) }
    ensures stop_fails { D.stopped disk.new ≡ true → IsErr result }
    ensures clean { D.tells ≡ true → D.stops ≡ true → D.stopped disk.old ≡ false
        → IsClean D.seen D.leaves disk.old → OnOk result (IsClean D.seen D.leaves disk.new) }
    ensures came { D.came disk.old disk.new }
    ensures cause { HasCauses D.may_run_out D.faults D.inner_faults D.stopped disk.old disk.new result }
{
    sync_twice(disk, file)?;
    sync_twice(disk, file)?;
    sync_twice(disk, file)?;
    Ok(())
}
