// A batch behind the closed gate at the end of an area, and then the gate opened by one byte.
ghost use Rattle.std.specs.Prelude.{◌≡◌, ◌+◌, ◌-◌, ◌^◌, ◌≤◌, [], ◌∷◌, length, drop, IfOk, OnOk};
ghost use Rattle.edge_traits.specs.Faults.{HasFaultCause};
ghost use Rattle.disk_trait.specs.Areas.{area_of, other_area};
ghost use Rattle.disk_trait.specs.Disk.{WhereTold, OnArea, Leads, IsSettled, ComesFrom, LeavesOnly};
ghost use Rattle.gate_areas.specs.Sealed.{CLOSED};
ghost use Rattle.gate_areas.specs.Steps.{Sealing, Seals};
ghost use Rattle.gate_areas.specs.LiveBatches.{Rests, SealsOne, IsNext, AddsOne};

use crate::frame::Frame;
use crate::live::LiveArea;
use disk_trait::{Area, Disk, Failed, write_synced};

const OPEN: u8 = 0xa5;

/// Seals a batch at the gate of the live area, in four device calls, and gives the area with its next gate. The frame is
/// on the disk before the gate is opened by one byte.
pub fn seal<D: Disk>(disk: &mut D, live: LiveArea, frame: &Frame) -> Result<LiveArea, Failed>
    requires settled { IsSettled (D.shows disk.old) }
    requires last { (D.shows disk.old).lengths live.area ≡ live.gate + 1 }
    requires limit { live.gate + 1 ≤ 2 ^ 63 - 1 }
    requires rests { WhereTold (D.shows disk.old) (Rests live) }

    ensures sealed { IfOk result (λ next.
        Leads (AddsOne live frame.now next) (D.shows disk.old) (D.shows disk.new)) }
    ensures next { IfOk result (IsNext live frame.now) }
    ensures settled { OnOk result (IsSettled (D.shows disk.new)) }
    ensures any_moment { LeavesOnly (D.shows disk.old) (D.shows disk.new)
        (ComesFrom (SealsOne live frame.now) (D.shows disk.old)) }

    ensures length { IfOk result (λ next. (D.shows disk.new).lengths next.area ≡ next.gate + 1) }
    ensures limit { IfOk result (λ next. next.gate + 1 ≤ 2 ^ 63 - 1) }
    ensures elsewhere { (D.shows disk.new).lengths (other_area live.area)
        ≡ (D.shows disk.old).lengths (other_area live.area) }
    ensures cause { HasFaultCause (D.shows disk.old).faults (D.shows disk.new).faults result }
{
    let bytes = frame.as_slice();
    seal_bytes(disk, live.area, live.gate, bytes)?;
    Ok(LiveArea {
        area: live.area,
        generation: live.generation,
        gate: live.gate + bytes.len() as u64,
    })
}

// Seals a frame at the closed gate at this place, which is the last byte of the area.
fn seal_bytes<D: Disk>(disk: &mut D, area: Area, place: u64, frame: &[u8]) -> Result<(), Failed>
    requires settled { IsSettled (D.shows disk.old) }
    requires last { (D.shows disk.old).lengths area ≡ place + 1 }
    requires limit { place + 1 ≤ 2 ^ 63 - 1 }
    requires closed { WhereTold (D.shows disk.old) (λ areas. drop place (area_of area areas) ≡ CLOSED ∷ []) }

    ensures sealed { OnOk result (Leads
        (OnArea area (Seals place frame.now)) (D.shows disk.old) (D.shows disk.new)) }
    ensures settled { OnOk result (IsSettled (D.shows disk.new)) }
    ensures any_moment { LeavesOnly (D.shows disk.old) (D.shows disk.new)
        (ComesFrom (OnArea area (Sealing place frame.now)) (D.shows disk.old)) }

    ensures length { OnOk result ((D.shows disk.new).lengths area ≡ place + 1 + length frame.now) }
    ensures limit { OnOk result (place + 1 + length frame.now ≤ 2 ^ 63 - 1) }
    ensures elsewhere { (D.shows disk.new).lengths (other_area area)
        ≡ (D.shows disk.old).lengths (other_area area) }
    ensures cause { HasFaultCause (D.shows disk.old).faults (D.shows disk.new).faults result }
{
    write_synced(disk, area, place + 1, frame)?;
    write_synced(disk, area, place, &[OPEN])
}
