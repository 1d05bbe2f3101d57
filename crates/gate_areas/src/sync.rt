// Both areas synced.
ghost use Rattle.std.specs.Prelude.{◌≡◌, OnOk};
ghost use Rattle.edge_traits.specs.Faults.{HasFaultCause};
ghost use Rattle.disk_trait.specs.Disk.{IsSettled, NoNewImage, SameLengths, LeavesOnly};

use disk_trait::{Area, Disk, Failed};

/// Syncs both areas. After `Ok` a stop leaves just what reads give.
pub fn sync_both<D: Disk>(disk: &mut D) -> Result<(), Failed>
    ensures settled { OnOk result (IsSettled (D.shows disk.new)) }
    ensures any_moment { LeavesOnly (D.shows disk.old) (D.shows disk.new) (D.shows disk.old).may_leave }
    ensures images { NoNewImage (D.shows disk.old) (D.shows disk.new) }
    ensures reads { (D.shows disk.new).reads ≡ (D.shows disk.old).reads }
    ensures lengths { SameLengths (D.shows disk.old) (D.shows disk.new) }
    ensures cause { HasFaultCause (D.shows disk.old).faults (D.shows disk.new).faults result }
{
    disk.sync(Area::Zero)?;
    disk.sync(Area::One)
}
