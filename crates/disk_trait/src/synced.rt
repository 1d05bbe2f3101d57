// A change and its sync, on a disk of which a stop leaves just what reads give. Most of what a log does is such pairs:
// from settled to settled, and in between a stop leaves what reads gave, or what a torn change makes of it.
ghost use Rattle.std.specs.Prelude.{◌≡◌, ◌+◌, ◌-◌, ◌^◌, ◌≤◌, max, length, OnOk};
ghost use Rattle.edge_traits.specs.Faults.{HasFaultCause};
ghost use Rattle.disk_trait.specs.Areas.{other_area};
ghost use Rattle.disk_trait.specs.Disk.{Written, Torn, Shortened, Cut, OnArea, Leads, IsSettled, ComesFrom, LeavesOnly};
ghost use Rattle.disk_trait.specs.Laws.{SameOutside};

use crate::{Area, Disk};
use edge_traits::Failed;

/// Writes and syncs. After an `Err` a stop may leave any bytes in the range and past the old end.
pub fn write_synced<D: Disk>(
    disk: &mut D,
    area: Area,
    from: u64,
    bytes: &[u8],
) -> Result<(), Failed>
    requires settled { IsSettled (D.shows disk.old) }
    requires within { from ≤ (D.shows disk.old).lengths area }

    ensures written { OnOk result (Leads
        (OnArea area (Written from bytes.now)) (D.shows disk.old) (D.shows disk.new)) }
    ensures settled { OnOk result (IsSettled (D.shows disk.new)) }
    ensures any_moment { LeavesOnly (D.shows disk.old) (D.shows disk.new)
        (ComesFrom (OnArea area (Torn from (length bytes.now))) (D.shows disk.old)) }

    ensures length { OnOk result
        ((D.shows disk.new).lengths area ≡ max ((D.shows disk.old).lengths area) (from + length bytes.now)) }
    ensures limit { OnOk result (from + length bytes.now ≤ 2 ^ 63 - 1) }
    ensures elsewhere { (D.shows disk.new).lengths (other_area area)
        ≡ (D.shows disk.old).lengths (other_area area) }
    ensures cause { HasFaultCause (D.shows disk.old).faults (D.shows disk.new).faults result }
{
    disk.write_at(area, from, bytes)?;
    disk.sync(area)
}

/// Cuts and syncs. After an `Err` a stop may leave the area cut or not.
pub fn cut_synced<D: Disk>(disk: &mut D, area: Area, len: u64) -> Result<(), Failed>
    requires settled { IsSettled (D.shows disk.old) }
    requires within { len ≤ (D.shows disk.old).lengths area }

    ensures cut { OnOk result (Leads
        (OnArea area (Shortened len)) (D.shows disk.old) (D.shows disk.new)) }
    ensures settled { OnOk result (IsSettled (D.shows disk.new)) }
    ensures any_moment { LeavesOnly (D.shows disk.old) (D.shows disk.new)
        (ComesFrom (OnArea area (Cut len)) (D.shows disk.old)) }

    ensures length { OnOk result ((D.shows disk.new).lengths area ≡ len) }
    ensures elsewhere { (D.shows disk.new).lengths (other_area area)
        ≡ (D.shows disk.old).lengths (other_area area) }
    ensures cause { HasFaultCause (D.shows disk.old).faults (D.shows disk.new).faults result }
{
    disk.cut(area, len)?;
    disk.sync(area)
}

/// Writes within the length of an area, and syncs. Whenever the disk stops, the bytes outside the range are the old ones.
pub fn rewrite_synced<D: Disk>(
    disk: &mut D,
    area: Area,
    from: u64,
    bytes: &[u8],
) -> Result<(), Failed>
    requires settled { IsSettled (D.shows disk.old) }
    requires within { from + length bytes.now ≤ (D.shows disk.old).lengths area }

    ensures written { OnOk result (Leads
        (OnArea area (Written from bytes.now)) (D.shows disk.old) (D.shows disk.new)) }
    ensures settled { OnOk result (IsSettled (D.shows disk.new)) }
    ensures outside { LeavesOnly (D.shows disk.old) (D.shows disk.new)
        (ComesFrom (OnArea area (SameOutside from (length bytes.now))) (D.shows disk.old)) }
    ensures cause { HasFaultCause (D.shows disk.old).faults (D.shows disk.new).faults result }
{
    write_synced(disk, area, from, bytes)
}
