//! Disks in memory, call by call.
use super::*;
use std::alloc::Global;
use std::test::Fail;

/// All bytes of a file.
fn content<D: Disk>(alloc: Global, disk: &mut D, file: u32) -> Result<Vec<u8>, DiskFault> {
    let len = disk.len(file)?;
    let mut bytes = Vec::new(alloc);
    bytes.resize(len as usize, 0)?;
    disk.read(file, 0, bytes.as_mut_slice())?;
    Ok(bytes)
}

/// Six calls, and which of them were done.
fn six_calls<D: Disk>(disk: &mut D) -> [bool; 6] {
    [
        disk.write_at(1, 0, b"abcd").is_ok(),
        disk.len(1).is_ok(),
        disk.cut(1, 0).is_ok(),
        disk.write_at(1, 0, b"xy").is_ok(),
        disk.sync(1).is_ok(),
        disk.read(1, 0, &mut []).is_ok(),
    ]
}

#[derive(Clone, Copy)]
struct Case {
    fails: u64,
    done: [bool; 6],
    left: &'static [u8],
}

#[test]
fn fails_at_its_calls(rt: HostRuntime) -> Result<(), Fail> {
    let alloc = rt.alloc();
    for case in [
        Case {
            fails: 1,
            done: [false, true, true, true, true, true],
            left: b"xy",
        },
        Case {
            fails: 2,
            done: [true, false, true, true, true, true],
            left: b"xy",
        },
        Case {
            fails: 3,
            done: [true, true, false, true, true, true],
            left: b"xycd",
        },
        Case {
            fails: 4,
            done: [true, true, true, false, true, true],
            left: b"",
        },
        Case {
            fails: 5,
            done: [true, true, true, true, false, true],
            left: b"xy",
        },
        Case {
            fails: 6,
            done: [true, true, true, true, true, false],
            left: b"xy",
        },
        Case {
            fails: 7,
            done: [true; 6],
            left: b"xy",
        },
    ] {
        let mut fails = Vec::new(alloc);
        fails.push(case.fails)?;
        let mut disk = MemDisk::new(alloc, fails);
        assert_eq!(rt; six_calls(&mut disk), case.done);
        disk.lift();
        assert_eq!(rt; content(alloc, &mut disk, 1)?.as_slice(), case.left);
    }
    Ok(())
}

#[test]
fn never_fails(rt: HostRuntime) -> Result<(), Fail> {
    let alloc = rt.alloc();
    let mut disk = SureDisk::new(alloc);
    assert_eq!(rt; six_calls(&mut disk), [true; 6]);
    assert_eq!(rt; put_down(&mut disk, 1, 0, b"pqr"), Ok(()));
    assert_eq!(rt; content(alloc, &mut disk, 1)?.as_slice(), b"pqr".as_slice());
    assert_eq!(rt; disk.len(0), Ok(0));
    Ok(())
}

#[test]
fn keeps_its_bound(rt: HostRuntime) {
    for (at, bytes, past) in [
        (0, "", false),
        ((1 << 62) - 1, "", false),
        (1 << 62, "", true),
        ((1 << 62) - 2, "a", false),
        ((1 << 62) - 1, "a", true),
        (u64::MAX, "a", true),
    ] {
        assert_eq!(rt; is_past_bound(at, bytes.as_bytes()), past);
    }
}
