// A log is opened, or made in an area, and the other area is kept.
ghost use Rattle.std.specs.Prelude.{◌≡◌, ◌≤◌, IfOk};
ghost use Rattle.disk_trait.specs.Areas.{other_area};
ghost use Rattle.disk_trait.specs.Disk.{WhereTold, IsSettled, ComesFrom, LeavesOnly};
ghost use Rattle.gate_areas.specs.Found.{HasRoom, found_of};
ghost use Rattle.gate_log.specs.Content.{AreaStays};
ghost use Rattle.gate_log.specs.Log.{disk_of, disk_after, live_area};
ghost use Rattle.gate_log.specs.Opened.{IsOldOr};

use gate_log::{Area, Batches, Disk, Frame, GateLog, LogError};
use std::alloc::Global;

/// Opens the log of a disk. A stop at any moment of it leaves an image from before, or one in which the area to which the log doesn't
/// write is as reads gave it.
pub fn open_keeping<D: Disk>(alloc: Global, disk: D) -> Result<(GateLog<D>, Batches), (LogError, D)>
    ensures { IfOk result (λ opened. LeavesOnly (D.shows disk) (D.shows (disk_of opened.0))
        (IsOldOr (D.shows disk)
        (ComesFrom (AreaStays (other_area (live_area opened.0))) (D.shows disk)))) }
{
    match GateLog::load(alloc, disk) {
        Ok(opened) => Ok(opened),
        Err(error) => Err(error),
    }
}

/// Makes a log in an area, behind what the disk has. A stop at any moment of it leaves the other area as it was.
pub fn make_keeping<D: Disk>(
    disk: D,
    area: Area,
    generation: u64,
    first: &Frame,
) -> Result<GateLog<D>, (LogError, D)>
    requires settled { IsSettled (D.shows disk) }
    requires room { WhereTold (D.shows disk) (λ areas. HasRoom area generation (found_of areas)) }
    requires generation { 1 ≤ generation }
    ensures { LeavesOnly (D.shows disk) (D.shows (disk_after result))
        (ComesFrom (AreaStays (other_area area)) (D.shows disk)) }
{
    GateLog::create_with(disk, area, generation, first)
}
