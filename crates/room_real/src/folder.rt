//! A folder as a disk.
ghost use Rattle.std.specs.Prelude.{◌≡◌, ◌<◌, ◌≤◌, ◌+◌, ◌-◌, ◌^◌, [], Ok, false, length, min, IfOk, IfErr, OnOk, OnErr};
ghost use Rattle.room_edge.specs.Causes.{Rose};

use crate::again;
use room_disk::{Disk, DiskFault};
use room_json::Text;
use std::alloc::Global;
use std::collections::BTreeMap;
use std::fs::{File, OpenOptions};
use std::io;
use std::io::ErrorKind;
use std::rt::Files;

/// A file has fewer bytes than this.
const BOUND: u64 = 1 << 62;

/// How many files are open at a time.
const OPEN_FILES: usize = 128;

/// A folder whose file n is `n.room`. It is opened at the first call, made where it is missing, and locked while it is
/// open; a lock that somebody else holds fails the call.
///
/// A file that is missing reads as empty, and a write, cut or sync makes it. After a sync that failed every sync fails,
/// since the system may have given up what it could not write.
#[derive(Drop)]
pub struct Folder<R> {
    alloc: Global,
    system: R,
    path: Text,
    place: Option<File>,
    files: BTreeMap<u32, File>,
    is_made: bool,
    is_listed: bool,
    has_lost: bool,
    faults: u64,
}

impl<R: Files<File = File>> Folder<R> {
    /// The folder at this path, not opened yet.
    pub fn new(alloc: Global, system: R, path: Text) -> Folder<R>
        ensures { result.faults ≡ 0 }
    {
        Folder {
            alloc,
            system,
            path,
            place: None,
            files: BTreeMap::new(alloc),
            is_made: false,
            is_listed: false,
            has_lost: false,
            faults: 0,
        }
    }

    /// Opens the folder and asks for its lock.
    fn enter(&mut self) -> io::Result<()>
        ensures { self.new.faults ≡ self.old.faults }
    {
        if self.place.is_some() {
            return Ok(());
        }
        let mut found = File::open(&self.system, self.path.as_str());
        if is_missing(&found) {
            again::make_folder(&self.system, self.path.as_str())?;
            self.is_made = true;
            found = File::open(&self.system, self.path.as_str());
        }
        let place = found?;
        place.try_lock()?;
        self.place = Some(place);
        Ok(())
    }

    /// Opens a file, and answers whether it is there. With `makes` it is made where it is missing.
    fn find(&mut self, number: u32, makes: bool) -> io::Result<bool>
        ensures { self.new.faults ≡ self.old.faults }
    {
        self.enter()?;
        if self.files.get(&number).is_some() {
            return Ok(true);
        }
        let path = format!(in self.alloc; "{}/{}.room", self.path.as_str(), number)?;
        let mut options = OpenOptions::new();
        options.read(true).write(true).create(makes);
        let found = options.open(&self.system, path.as_str());
        if !makes && is_missing(&found) {
            return Ok(false);
        }
        let file = found?;
        if makes {
            self.is_listed = false;
        }
        self.make_room()?;
        self.files.insert(number, file)?;
        Ok(true)
    }

    /// Closes a file where too many are open. What was written to it is synced before.
    fn make_room(&mut self) -> io::Result<()>
        ensures { self.new.faults ≡ self.old.faults }
    {
        if self.files.len() < OPEN_FILES {
            return Ok(());
        }
        match self.files.pop_first() {
            Some((_, file)) => self.kept(file.sync_all()),
            None => Ok(()),
        }
    }

    /// Notes a sync that failed.
    fn kept(&mut self, synced: io::Result<()>) -> io::Result<()>
        ensures { self.new.faults ≡ self.old.faults }
    {
        if synced.is_err() {
            self.has_lost = true;
        }
        synced
    }

    fn measure(&mut self, number: u32) -> io::Result<u64>
        ensures bound { IfOk result (λ n. n < 2 ^ 62) }
        ensures faults { self.new.faults ≡ self.old.faults }
    {
        if !self.find(number, false)? {
            return Ok(0);
        }
        match self.files.get(&number) {
            Some(file) => small(file.metadata()?.len()),
            None => Ok(0),
        }
    }

    fn fill(&mut self, number: u32, at: u64, into: &mut [u8]) -> io::Result<()>
        ensures { self.new.faults ≡ self.old.faults }
    {
        if self.find(number, false)? {
            if let Some(file) = self.files.get(&number) {
                return again::fill_from(file, at, into);
            }
        }
        if into.is_empty() {
            return Ok(());
        }
        Err(io::Error::from(ErrorKind::UnexpectedEof))
    }

    fn put(&mut self, number: u32, at: u64, bytes: &[u8]) -> io::Result<()>
        ensures bound { OnOk result (at + length bytes.now < 2 ^ 62) }
        ensures faults { self.new.faults ≡ self.old.faults }
    {
        small(at.saturating_add(bytes.len() as u64))?;
        self.find(number, true)?;
        match self.files.get(&number) {
            Some(file) => again::write_all(file, at, bytes),
            None => Ok(()),
        }
    }

    fn shorten(&mut self, number: u32, len: u64) -> io::Result<()>
        ensures { self.new.faults ≡ self.old.faults }
    {
        self.find(number, true)?;
        match self.files.get(&number) {
            Some(file) => file.set_len(len),
            None => Ok(()),
        }
    }

    /// Syncs a file, the list of files in its folder, and the folder's own entry.
    fn settle(&mut self, number: u32) -> io::Result<()>
        ensures { self.new.faults ≡ self.old.faults }
    {
        self.find(number, true)?;
        if self.has_lost {
            return Err(io::Error::from(ErrorKind::Other));
        }
        let synced = match self.files.get(&number) {
            Some(file) => file.sync_all(),
            None => Ok(()),
        };
        self.kept(synced)?;
        if self.is_listed {
            return Ok(());
        }
        let listed = self.list();
        self.kept(listed)?;
        self.is_listed = true;
        Ok(())
    }

    /// Syncs the folder, and the folder that it stands in.
    fn list(&self) -> io::Result<()> {
        if let Some(place) = &self.place {
            place.sync_all()?;
        }
        let path = format!(in self.alloc; "{}/..", self.path.as_str())?;
        match File::open(&self.system, path.as_str()) {
            Ok(above) => above.sync_all(),
            Err(error) if self.is_made => Err(error),
            Err(_) => Ok(()),
        }
    }

    /// Counts a call that failed.
    fn count<T>(&mut self, answer: io::Result<T>) -> Result<T, DiskFault>
        ensures ok { IfOk result (λ x. answer ≡ Ok x) }
        ensures same { OnOk result (self.new.faults ≡ self.old.faults) }
        ensures counted { OnErr result (self.new.faults ≡ min (self.old.faults + 1) (2 ^ 64 - 1)) }
        ensures later { self.old.faults ≤ self.new.faults }
        ensures rose { OnErr result (Rose self.old.faults self.new.faults) }
        ensures only { IfErr result (λ e. e ≡ DiskFault.Failed) }
    {
        match answer {
            Ok(value) => Ok(value),
            Err(_) => {
                self.faults = self.faults.saturating_add(1);
                Err(DiskFault::Failed)
            }
        }
    }
}

impl<R: Files<File = File>> Disk for Folder<R> {
    ghost use Rattle.std.specs.Prelude.{⊤};
    ghost use Rattle.room_disk.specs.Causes.{HasCause};
    ghost use Rattle.room_disk.specs.declared.disk.DiskFault.TheVariants.{Memory, Failed};

    ghost tells = { false };

    ghost may_run_out = { false };

    ghost seen = { λ _ _. [] };

    ghost moment = { λ _. 0 };

    ghost images = { λ _ _ _ _. ⊤ };

    ghost faults = { λ d. d.faults };

    ghost inner_faults = { λ d. d.faults };

    ghost stops = { false };

    ghost stopped = { λ _. false };

    ghost leaves = { λ _ _ _. [] };

    ghost came = { λ _ _. ⊤ };

    ghost came_same = { λ _. tt };

    ghost came_then = { λ _ _ _ _ _. tt };

    ghost seen_is_small = { λ _ _ told. cc };

    ghost seen_is_image = { λ _ _ told. tt };

    ghost left_is_image = { λ _ _ _ told. tt };

    fn len(&mut self, file: u32) -> Result<u64, DiskFault> {
        let answer = self.measure(file);
        self.count(answer)
    }

    fn read(&mut self, file: u32, at: u64, into: &mut [u8]) -> Result<(), DiskFault> {
        let answer = self.fill(file, at, into);
        self.count(answer)
    }

    fn write_at(&mut self, file: u32, at: u64, bytes: &[u8]) -> Result<(), DiskFault> {
        let answer = self.put(file, at, bytes);
        self.count(answer)
    }

    fn cut(&mut self, file: u32, len: u64) -> Result<(), DiskFault> {
        let answer = self.shorten(file, len);
        self.count(answer)
    }

    fn sync(&mut self, file: u32) -> Result<(), DiskFault> {
        let answer = self.settle(file);
        self.count(answer)
    }
}

/// A number of bytes that a file may have.
fn small(len: u64) -> io::Result<u64>
    ensures { IfOk result (λ n. (n ≡ len) × (n < 2 ^ 62)) }
{
    if len < BOUND {
        return Ok(len);
    }
    Err(io::Error::from(ErrorKind::FileTooLarge))
}

fn is_missing<T>(found: &io::Result<T>) -> bool {
    match found {
        Ok(_) => false,
        Err(error) => error.kind() == ErrorKind::NotFound,
    }
}
