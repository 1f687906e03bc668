//! Passing what is held back to the inner disk.
ghost use Rattle.std.specs.Prelude.{◌≡◌, ◌≤◌, ◌<◌, ◌+◌, [], ℕ, List};
ghost use Rattle.std.specs.Prelude.{length, OnOk, IfOk, IsTrue, IsFalse, true, reverse};
ghost use Rattle.room_disk.specs.Model.{Steps, Only};
ghost use Rattle.room_disk.specs.Changes.{changed, ChangedInPart, place};
ghost use Rattle.room_disk.specs.Causes.{HasCause};
ghost use Rattle.room_fuse.specs.Held.{content_over, Fits, StaysBelow, Others, Rest, first_of, torn};
ghost use Rattle.room_fuse.specs.Passing.{Passed, Spares};

use crate::held::Held;
use room_disk::{Disk, DiskFault, FileChange};

/// Makes the change on a disk.
fn pass<D: Disk>(disk: &mut D, file: u32, change: &FileChange) -> Result<(), DiskFault>
    requires { D.tells ≡ true → place change.now ≤ length (D.seen disk.old file) }
    ensures done { D.tells ≡ true → OnOk result (D.seen disk.new file ≡ changed change.now (D.seen disk.old file)) }
    ensures steps { D.tells ≡ true → Steps D.seen D.moment D.images file (ChangedInPart change.now) disk.old disk.new }
    ensures came { D.came disk.old disk.new }
    ensures cause { HasCause D.may_run_out D.faults D.inner_faults D.stopped disk.old disk.new result }
{
    match change {
        FileChange::Write(at, bytes) => disk.write_at(file, *at, bytes.as_slice()),
        FileChange::Cut(len) => disk.cut(file, *len),
    }
}

/// The place of the first call of a file, or the end.
pub(crate) fn index_of(calls: &[Held], file: u32) -> usize
    ensures place { result ≡ first_of calls.now file }
    ensures within { result ≤ length calls.now }
{
    let mut at = 0;
    for call in calls {
        if call.file == file {
            return at;
        }
        at += 1;
    }
    at
}

/// Passes the first call of a file on, and answers whether there was one. One that is refused stays held back.
fn pass_next<D: Disk>(disk: &mut D, held: &mut Vec<Held>, file: u32) -> Result<bool, DiskFault>
    requires { D.tells ≡ true → Fits (D.seen disk.old) (reverse held.old.items) }
    ensures passed { D.tells ≡ true → Passed D.seen D.moment D.images disk.old held.old.items disk.new held.new.items }
    ensures spares { D.tells ≡ true → Spares D.seen D.moment D.images file disk.old disk.new }
    ensures rest { Rest file held.old.items held.new.items }
    ensures fewer { IfOk result (λ more. IsTrue more → length held.new.items < length held.old.items) }
    ensures none { IfOk result (λ more. IsFalse more → Others file held.new.items) }
    ensures came { D.came disk.old disk.new }
    ensures cause { HasCause D.may_run_out D.faults D.inner_faults D.stopped disk.old disk.new result }
{
    let i = index_of(held.as_slice(), file);
    if i == held.len() {
        return Ok(false);
    }
    pass(disk, file, &held[i].change)?;
    drop(held.remove(i));
    Ok(true)
}

/// Passes all calls of a file on, in order.
fn pass_each<D: Disk>(disk: &mut D, held: &mut Vec<Held>, file: u32) -> Result<(), DiskFault>
    requires { D.tells ≡ true → Fits (D.seen disk.old) (reverse held.old.items) }
    ensures passed { D.tells ≡ true → Passed D.seen D.moment D.images disk.old held.old.items disk.new held.new.items }
    ensures spares { D.tells ≡ true → Spares D.seen D.moment D.images file disk.old disk.new }
    ensures rest { Rest file held.old.items held.new.items }
    ensures none { OnOk result (Others file held.new.items) }
    ensures came { D.came disk.old disk.new }
    ensures cause { HasCause D.may_run_out D.faults D.inner_faults D.stopped disk.old disk.new result }
{
    while pass_next(disk, held, file)? {}
    Ok(())
}

/// Passes all calls of a file on, in order, and syncs it.
pub(crate) fn pass_all<D: Disk>(
    disk: &mut D,
    held: &mut Vec<Held>,
    file: u32,
) -> Result<(), DiskFault>
    requires { D.tells ≡ true → Fits (D.seen disk.old) (reverse held.old.items) }
    ensures passed { D.tells ≡ true → Passed D.seen D.moment D.images disk.old held.old.items disk.new held.new.items }
    ensures spares { D.tells ≡ true → Spares D.seen D.moment D.images file disk.old disk.new }
    ensures rest { Rest file held.old.items held.new.items }
    ensures none { OnOk result (Others file held.new.items) }
    ensures durable { D.tells ≡ true
        → OnOk result (Only (D.seen disk.new file) (D.images disk.new (D.moment disk.new) file)) }
    ensures came { D.came disk.old disk.new }
    ensures cause { HasCause D.may_run_out D.faults D.inner_faults D.stopped disk.old disk.new result }
{
    pass_each(disk, held, file)?;
    disk.sync(file)
}

/// Passes all calls on, file by file, and syncs each of these files.
pub(crate) fn pass_whole<D: Disk>(disk: &mut D, held: &mut Vec<Held>) -> Result<(), DiskFault>
    requires { D.tells ≡ true → Fits (D.seen disk.old) (reverse held.old.items) }
    ensures passed { D.tells ≡ true → Passed D.seen D.moment D.images disk.old held.old.items disk.new held.new.items }
    ensures no_more { length held.new.items ≤ length held.old.items }
    ensures below { StaysBelow held.old.items → StaysBelow held.new.items }
    ensures torn { torn held.old.items ≡ held.old.items → torn held.new.items ≡ held.new.items }
    ensures empty { OnOk result (held.new.items ≡ []) }
    ensures durable { D.tells ≡ true → OnOk result ((f : ℕ) → (Others f held.old.items → ⊥)
        → Only (D.seen disk.new f) (D.images disk.new (D.moment disk.new) f)) }
    ensures came { D.came disk.old disk.new }
    ensures cause { HasCause D.may_run_out D.faults D.inner_faults D.stopped disk.old disk.new result }
{
    while held.len() > 0 {
        let file = held[0].file;
        pass_all(disk, held, file)?;
    }
    Ok(())
}
