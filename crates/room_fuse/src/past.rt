//! The moments that a fuse has come through.
ghost use Rattle.std.specs.Prelude.{◌≡◌, OnOk, OnErr, IfErr};
ghost use Rattle.room_fuse.specs.Past.{IsMarked};

use crate::held::Held;
use room_disk::DiskFault;
use std::snapshot::Snapshot;

/// The inner disk and what was held back at a moment. It takes no byte: contracts alone see it.
#[derive(Drop)]
pub struct Mark<D> {
    pub inner: Snapshot<D>,
    pub held: Snapshot<Vec<Held>>,
}

/// Marks one moment more.
pub(crate) fn remember<D>(
    past: &mut Vec<Mark<D>>,
    inner: &D,
    held: &Vec<Held>,
) -> Result<(), DiskFault>
    ensures ok { OnOk result (IsMarked past.old.items inner.now held.now.items past.new.items) }
    ensures err { OnErr result (past.new.items ≡ past.old.items) }
    ensures cause { IfErr result (λ e. e ≡ DiskFault.Memory) }
{
    let here = Mark {
        inner: Snapshot::of(inner),
        held: Snapshot::of(held),
    };
    past.push(here)?;
    Ok(())
}
