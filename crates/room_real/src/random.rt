//! Random bytes of the system, for keys.
ghost use Rattle.std.specs.Prelude.{◌≡◌, ◌<◌, ◌+◌, ◌-◌, ◌^◌, None, length, min, OnOk, OnErr};
ghost use Rattle.std.specs.Io.{ReadsAtMost};
ghost use Rattle.std.specs.Io.KnownBytes.{ReadConsumes};
ghost use Rattle.room_edge.specs.Causes.{HasCause};

use crate::again;
use room_edge::{Failed, Source};
use std::fs::File;
use std::io;
use std::rt::Files;

/// The bytes of `/dev/urandom`, which is opened at the first read. It has no end.
#[derive(Drop)]
pub struct RandomBytes<R> {
    system: R,
    device: Option<File>,
    faults: u64,
}

impl<R: Files<File = File>> RandomBytes<R> {
    /// Random bytes of this system, with no fault yet.
    pub fn new(system: R) -> RandomBytes<R>
        ensures { result.faults ≡ 0 }
    {
        RandomBytes {
            system,
            device: None,
            faults: 0,
        }
    }

    fn take(&mut self, into: &mut [u8]) -> io::Result<usize>
        ensures bound { ReadsAtMost result into.new }
        ensures faults { self.new.faults ≡ self.old.faults }
    {
        if self.device.is_none() {
            self.device = Some(File::open(&self.system, "/dev/urandom")?);
        }
        match &mut self.device {
            Some(device) => again::read(device, into),
            None => Ok(0),
        }
    }
}

impl<R: Files<File = File>> Source for RandomBytes<R> {
    ghost left = { λ _. None };

    ghost faults = { λ s. s.faults };

    fn read(&mut self, into: &mut [u8]) -> Result<usize, Failed>
        requires { 0 < length into.old }
        ensures bound { ReadsAtMost result into.new }
        ensures bytes { ReadConsumes None None result into.new }
        ensures cause { HasCause self.old.faults self.new.faults result }
        ensures same { OnOk result (self.new.faults ≡ self.old.faults) }
        ensures counted { OnErr result (self.new.faults ≡ min (self.old.faults + 1) (2 ^ 64 - 1)) }
    {
        match self.take(into) {
            Ok(count) => Ok(count),
            Err(_) => {
                self.faults = self.faults.saturating_add(1);
                Err(Failed)
            }
        }
    }
}
