//! Cases of `room_real`'s folder as a disk, in a place that no other run has.
use crate::args::{bytes, cut, number, text};
use crate::broken::Broken;
use room_disk::{Disk, DiskFault};
use room_json::Text;
use room_real::Folder;
use std::alloc::Global;
use std::{env, fs, process};

/// A folder that is open, or none yet.
#[derive(Drop)]
pub(crate) struct Place<'a> {
    rt: &'a HostRuntime,
    path: Text,
    folder: Option<Folder<&'a HostRuntime>>,
}

impl<'a> Place<'a> {
    /// A place for this process.
    pub(crate) fn new(rt: &'a HostRuntime) -> Result<Place<'a>, Broken> {
        let alloc = rt.alloc();
        let place = env::temp_dir(rt)?;
        let id = process::id(rt.process());
        let path = format!(in alloc; "{}/room-cases-{id}", place.as_path().as_str())?;
        Ok(Place {
            rt,
            path: text(alloc, path.as_str())?,
            folder: None,
        })
    }

    /// What comes of a case of the folder.
    pub(crate) fn outcome(&mut self, verb: &str, rest: &str) -> Result<String, Broken> {
        let alloc = self.rt.alloc();
        match verb {
            "open" => self.open(),
            "second" => self.second(),
            "end" => self.end(),
            _ => match &mut self.folder {
                Some(folder) => act(alloc, folder, verb, rest),
                None => Err(Broken::Verb),
            },
        }
    }

    /// Gives up the folder, and opens it anew.
    fn open(&mut self) -> Result<String, Broken> {
        let alloc = self.rt.alloc();
        self.folder = None;
        let path = text(alloc, self.path.as_str())?;
        self.folder = Some(Folder::new(alloc, self.rt, path));
        Ok(String::from_str(alloc, "ok")?)
    }

    /// What another folder answers at the same place.
    fn second(&self) -> Result<String, Broken> {
        let alloc = self.rt.alloc();
        let path = text(alloc, self.path.as_str())?;
        told_length(alloc, Folder::new(alloc, self.rt, path).len(0))
    }

    /// Gives up the folder, and removes it.
    fn end(&mut self) -> Result<String, Broken> {
        self.folder = None;
        fs::remove_dir_all(self.rt, self.path.as_str())?;
        Ok(String::from_str(self.rt.alloc(), "ok")?)
    }
}

/// What comes of a call of a disk.
fn act(
    alloc: Global,
    disk: &mut Folder<&HostRuntime>,
    verb: &str,
    rest: &str,
) -> Result<String, Broken> {
    let (file, rest) = cut(rest);
    let Ok(file) = u32::try_from(number(file)?) else {
        return Err(Broken::Number);
    };
    match verb {
        "len" => told_length(alloc, disk.len(file)),
        "read" => read(alloc, disk, file, rest),
        "write" => write(alloc, disk, file, rest),
        "cut" => told(alloc, disk.cut(file, number(rest)?)),
        "sync" => told(alloc, disk.sync(file)),
        _ => Err(Broken::Verb),
    }
}

/// Reads six bytes at a place.
fn read(
    alloc: Global,
    disk: &mut Folder<&HostRuntime>,
    file: u32,
    at: &str,
) -> Result<String, Broken> {
    let mut into = [0u8; 6];
    match disk.read(file, number(at)?, &mut into) {
        Ok(()) => Ok(hex::encode(alloc, &into[..])?),
        Err(_) => Ok(String::from_str(alloc, "failed")?),
    }
}

fn write(
    alloc: Global,
    disk: &mut Folder<&HostRuntime>,
    file: u32,
    rest: &str,
) -> Result<String, Broken> {
    let (at, word) = cut(rest);
    let bytes = bytes(alloc, word)?;
    told(alloc, disk.write_at(file, number(at)?, bytes.as_slice()))
}

fn told(alloc: Global, answer: Result<(), DiskFault>) -> Result<String, Broken> {
    match answer {
        Ok(()) => Ok(String::from_str(alloc, "ok")?),
        Err(_) => Ok(String::from_str(alloc, "failed")?),
    }
}

fn told_length(alloc: Global, answer: Result<u64, DiskFault>) -> Result<String, Broken> {
    match answer {
        Ok(length) => Ok(format!(in alloc; "{length}")?),
        Err(_) => Ok(String::from_str(alloc, "failed")?),
    }
}
