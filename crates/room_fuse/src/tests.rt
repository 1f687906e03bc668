//! A fuse at each call, in each way to stop.
ghost use Rattle.std.specs.Prelude.{◌≤◌};

use super::*;
use room_disk::{Disk, DiskFault, MemDisk, Stop, SureDisk, put_down};
use std::alloc::Global;
use std::test::Fail;

/// All bytes of a file.
fn content<D: Disk>(alloc: Global, disk: &mut D, file: u32) -> Result<Vec<u8>, DiskFault> {
    let len = disk.len(file)?;
    let mut bytes = Vec::new(alloc);
    bytes.resize(len as usize, 0)?;
    disk.read(file, 0, bytes.as_mut_slice())?;
    Ok(bytes)
}

/// Six counted calls, and which of them were done.
fn six_calls<D: Disk>(disk: &mut D) -> [bool; 6] {
    [
        disk.write_at(1, 0, b"xy").is_ok(),
        disk.sync(1).is_ok(),
        disk.write_at(1, 0, b"pq").is_ok(),
        disk.cut(1, 0).is_ok(),
        disk.write_at(1, 0, b"z").is_ok(),
        disk.sync(1).is_ok(),
    ]
}

/// What each way of settling leaves of `abcd` where the call of that number is the stop.
struct Row {
    old: &'static [u8],
    new: &'static [u8],
    torn: &'static [u8],
}

const ROWS: [Row; 7] = [
    Row {
        old: b"abcd",
        new: b"xycd",
        torn: b"\xff\xffcd",
    },
    Row {
        old: b"abcd",
        new: b"xycd",
        torn: b"\xff\xffcd",
    },
    Row {
        old: b"xycd",
        new: b"pqcd",
        torn: b"\xff\xffcd",
    },
    Row {
        old: b"xycd",
        new: b"",
        torn: b"",
    },
    Row {
        old: b"xycd",
        new: b"z",
        torn: b"\xff",
    },
    Row {
        old: b"xycd",
        new: b"z",
        torn: b"\xff",
    },
    Row {
        old: b"z",
        new: b"z",
        torn: b"z",
    },
];

/// Stops at the call of that number, and settles.
fn stopped_at(
    alloc: Global,
    number: u64,
    how: Stop,
) -> Result<([bool; 6], bool, Vec<u8>), DiskFault>
    requires { 1 ≤ number }
{
    let mut inner = MemDisk::new(alloc, Vec::new(alloc));
    put_down(&mut inner, 1, 0, b"abcd")?;
    let mut disk = Fused::new(alloc, inner);
    disk.arm(number, how);
    let done = six_calls(&mut disk);
    let fired = disk.fired() && disk.len(1) == Err(DiskFault::Failed);
    disk.settle()?;
    Ok((done, fired, content(alloc, &mut disk, 1)?))
}

#[test]
fn stops_at_the_armed_call(rt: HostRuntime) -> Result<(), Fail> {
    for number in 1..8 {
        let row = &ROWS[number as usize - 1];
        for (how, left) in [
            (Stop::Old, row.old),
            (Stop::New, row.new),
            (Stop::Torn, row.torn),
        ] {
            let (done, fired, bytes) = stopped_at(rt.alloc(), number, how)?;
            assert_eq!(rt;
                done,
                [
                    1 < number,
                    2 < number,
                    3 < number,
                    4 < number,
                    5 < number,
                    6 < number
                ]
            );
            assert_eq!(rt; fired, number < 7);
            assert_eq!(rt; bytes.as_slice(), left);
        }
    }
    Ok(())
}

#[test]
fn holds_back_file_by_file(rt: HostRuntime) -> Result<(), Fail> {
    let alloc = rt.alloc();
    let mut disk = Fused::new(alloc, SureDisk::new(alloc));
    disk.write_at(1, 0, b"a")?;
    disk.write_at(2, 0, b"b")?;
    assert_eq!(rt; content(alloc, &mut disk, 2)?.as_slice(), b"b".as_slice());
    disk.sync(1)?;
    disk.settle()?;
    assert_eq!(rt; content(alloc, &mut disk, 1)?.as_slice(), b"a".as_slice());
    assert_eq!(rt; disk.len(2), Ok(0));
    Ok(())
}

#[test]
fn settles_again(rt: HostRuntime) -> Result<(), Fail> {
    let alloc = rt.alloc();
    for failing in 1..3 {
        let mut fails = Vec::new(alloc);
        fails.push(failing)?;
        let mut disk = Fused::new(alloc, MemDisk::new(alloc, fails));
        disk.arm(2, Stop::New);
        assert_eq!(rt; disk.write_at(1, 0, b"ab"), Ok(()));
        assert_eq!(rt; disk.sync(1), Err(DiskFault::Failed));
        assert_eq!(rt; disk.settle(), Err(DiskFault::Failed));
        assert_eq!(rt; disk.fired(), true);
        assert_eq!(rt; disk.settle(), Ok(()));
        assert_eq!(rt; content(alloc, &mut disk, 1)?.as_slice(), b"ab".as_slice());
    }
    Ok(())
}
