// The end of an area: what stands behind a gate that isn't open doesn't count.
ghost use Rattle.std.specs.Prelude.{◌≡◌, ◌+◌, ◌-◌, ◌^◌, ◌≤◌, OnOk};
ghost use Rattle.edge_traits.specs.Faults.{HasFaultCause};
ghost use Rattle.disk_trait.specs.Disk.{WhereTold, Shortened, Cut, OnArea, Leads, IsSettled, ComesFrom, LeavesOnly};
ghost use Rattle.gate_areas.specs.Found.{KeepsFound};
ghost use Rattle.gate_areas.specs.LiveBatches.{Lives, ComesToRest};
ghost use Rattle.gate_areas.specs.Scan.{IsGatePlace};
ghost use Rattle.gate_areas.specs.Steps.{Repairing, Repairs};

use crate::live::LiveArea;
use disk_trait::{Area, Disk, Failed, cut_synced, write_synced};

const CLOSED: u8 = 0;

/// Repairs the end of the live area: it leaves a closed gate, and nothing behind it, so that what stood there can never
/// count. The areas stand for the same all the time.
pub fn repair<D: Disk>(disk: &mut D, live: LiveArea) -> Result<(), Failed>
    requires settled { IsSettled (D.shows disk.old) }
    requires fits { IsGatePlace live.gate ((D.shows disk.old).lengths live.area) }
    requires lives { WhereTold (D.shows disk.old) (Lives live) }

    ensures repaired { OnOk result (Leads (ComesToRest live) (D.shows disk.old) (D.shows disk.new)) }
    ensures settled { OnOk result (IsSettled (D.shows disk.new)) }
    ensures any_moment { LeavesOnly (D.shows disk.old) (D.shows disk.new)
        (ComesFrom (KeepsFound live.area) (D.shows disk.old)) }

    ensures length { OnOk result ((D.shows disk.new).lengths live.area ≡ live.gate + 1) }
    ensures cause { HasFaultCause (D.shows disk.old).faults (D.shows disk.new).faults result }
{
    repair_bytes(disk, live.area, live.gate)
}

/// Leaves at most so many bytes of an area.
pub fn shorten<D: Disk>(disk: &mut D, area: Area, most: u64) -> Result<(), Failed>
    requires settled { IsSettled (D.shows disk.old) }

    ensures shortened { OnOk result
        (Leads (OnArea area (Shortened most)) (D.shows disk.old) (D.shows disk.new)) }
    ensures settled { OnOk result (IsSettled (D.shows disk.new)) }
    ensures any_moment { LeavesOnly (D.shows disk.old) (D.shows disk.new)
        (ComesFrom (OnArea area (Cut most)) (D.shows disk.old)) }

    ensures length { OnOk result ((D.shows disk.new).lengths area ≤ most) }
    ensures keeps { OnOk result (most ≤ (D.shows disk.old).lengths area
        → (D.shows disk.new).lengths area ≡ most) }
    ensures cause { HasFaultCause (D.shows disk.old).faults (D.shows disk.new).faults result }
{
    if disk.len(area)? > most {
        cut_synced(disk, area, most)
    } else {
        Ok(())
    }
}

// Closes the gate at a place, which is the last byte of an area.
fn shut_gate<D: Disk>(disk: &mut D, area: Area, place: u64) -> Result<(), Failed>
    requires settled { IsSettled (D.shows disk.old) }
    requires last { (D.shows disk.old).lengths area ≡ place + 1 }

    ensures shut { OnOk result
        (Leads (OnArea area (Repairs place)) (D.shows disk.old) (D.shows disk.new)) }
    ensures settled { OnOk result (IsSettled (D.shows disk.new)) }
    ensures any_moment { LeavesOnly (D.shows disk.old) (D.shows disk.new)
        (ComesFrom (OnArea area (Repairing place)) (D.shows disk.old)) }

    ensures length { OnOk result ((D.shows disk.new).lengths area ≡ place + 1) }
    ensures cause { HasFaultCause (D.shows disk.old).faults (D.shows disk.new).faults result }
{
    let mut gate = [0];
    disk.read(area, place, &mut gate)?;
    if gate[0] != CLOSED {
        write_synced(disk, area, place, &[CLOSED])
    } else {
        Ok(())
    }
}

// Leaves a closed gate at a place, and nothing behind it. The cut is on the disk before the gate is written.
fn repair_bytes<D: Disk>(disk: &mut D, area: Area, place: u64) -> Result<(), Failed>
    requires settled { IsSettled (D.shows disk.old) }
    requires within { place + 1 ≤ (D.shows disk.old).lengths area }
    requires limit { place + 1 ≤ 2 ^ 63 - 1 }

    ensures repaired { OnOk result
        (Leads (OnArea area (Repairs place)) (D.shows disk.old) (D.shows disk.new)) }
    ensures settled { OnOk result (IsSettled (D.shows disk.new)) }
    ensures any_moment { LeavesOnly (D.shows disk.old) (D.shows disk.new)
        (ComesFrom (OnArea area (Repairing place)) (D.shows disk.old)) }

    ensures length { OnOk result ((D.shows disk.new).lengths area ≡ place + 1) }
    ensures cause { HasFaultCause (D.shows disk.old).faults (D.shows disk.new).faults result }
{
    shorten(disk, area, place + 1)?;
    shut_gate(disk, area, place)
}
