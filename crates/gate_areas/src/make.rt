// A new area: it is blank until its head gate is opened by one byte, with all of it on the disk.
ghost use Rattle.std.specs.Prelude.{◌≡◌, ◌+◌, ◌-◌, ◌^◌, ◌<◌, ◌≤◌, ◌++◌, [], ◌∷◌, length, IfOk, OnOk};
ghost use Rattle.std.specs.Int.{to_be_bytes};
ghost use Rattle.edge_traits.specs.Faults.{HasFaultCause};
ghost use Rattle.disk_trait.specs.Disk.{WhereTold, OnArea, Leads, IsSettled, ComesFrom, LeavesOnly};
ghost use Rattle.gate_areas.specs.Sealed.{area_text};
ghost use Rattle.gate_areas.specs.Found.{Live, found_of, HasRoom, TakesOver};
ghost use Rattle.gate_areas.specs.LiveBatches.{IsMade, Holds};
ghost use Rattle.gate_areas.specs.Scan.{IsGatePlace};
ghost use Rattle.gate_areas.specs.Steps.{Blanking, Blanks, Grows, GrowsBy, Making, Makes};

use crate::frame::Frame;
use crate::live::LiveArea;
use crate::repairing::shorten;
use disk_trait::{Area, Disk, Failed, write_synced};

const OPEN: u8 = 0xa5;

const CLOSED: u8 = 0;

/// Makes a new live area, with no batch. Until its head gate is opened by one byte, with all of it on the disk, the areas
/// stand for what they did.
pub fn make_area<D: Disk>(disk: &mut D, area: Area, generation: u64) -> Result<LiveArea, Failed>
    requires settled { IsSettled (D.shows disk.old) }
    requires room { WhereTold (D.shows disk.old) (λ areas. HasRoom area generation (found_of areas)) }
    requires generation { 1 ≤ generation }

    ensures made { IfOk result (λ live. WhereTold (D.shows disk.new) (Holds live [])) }
    ensures here { IfOk result (IsMade area generation 17) }
    ensures settled { OnOk result (IsSettled (D.shows disk.new)) }
    ensures any_moment { LeavesOnly (D.shows disk.old) (D.shows disk.new)
        (ComesFrom (TakesOver area (Live area generation [])) (D.shows disk.old)) }

    ensures fits { IfOk result (λ live. IsGatePlace live.gate ((D.shows disk.new).lengths live.area)) }
    ensures length { IfOk result (λ live. (D.shows disk.new).lengths live.area ≡ live.gate + 1) }
    ensures cause { HasFaultCause (D.shows disk.old).faults (D.shows disk.new).faults result }
{
    make_bytes(disk, area, generation, CLOSED, &[])?;
    Ok(LiveArea {
        area,
        generation,
        gate: 17,
    })
}

/// Makes a new live area with a first batch, which is sealed as soon as the area is.
pub fn make_area_with<D: Disk>(
    disk: &mut D,
    area: Area,
    generation: u64,
    first: &Frame,
) -> Result<LiveArea, Failed>
    requires settled { IsSettled (D.shows disk.old) }
    requires room { WhereTold (D.shows disk.old) (λ areas. HasRoom area generation (found_of areas)) }
    requires generation { 1 ≤ generation }

    ensures made { IfOk result (λ live. WhereTold (D.shows disk.new) (Holds live ((17, first.now) ∷ []))) }
    ensures here { IfOk result (IsMade area generation (17 + 9 + length first.now)) }
    ensures settled { OnOk result (IsSettled (D.shows disk.new)) }
    ensures any_moment { LeavesOnly (D.shows disk.old) (D.shows disk.new)
        (ComesFrom (TakesOver area (Live area generation ((17, first.now) ∷ []))) (D.shows disk.old)) }

    ensures fits { IfOk result (λ live. IsGatePlace live.gate ((D.shows disk.new).lengths live.area)) }
    ensures length { IfOk result (λ live. (D.shows disk.new).lengths live.area ≡ live.gate + 1) }
    ensures cause { HasFaultCause (D.shows disk.old).faults (D.shows disk.new).faults result }
{
    let frame = first.as_slice();
    make_bytes(disk, area, generation, OPEN, frame)?;
    Ok(LiveArea {
        area,
        generation,
        gate: 17 + frame.len() as u64,
    })
}

// Leaves one closed gate of an area.
fn make_blank<D: Disk>(disk: &mut D, area: Area) -> Result<(), Failed>
    requires settled { IsSettled (D.shows disk.old) }

    ensures blank { OnOk result (Leads (OnArea area Blanks) (D.shows disk.old) (D.shows disk.new)) }
    ensures settled { OnOk result (IsSettled (D.shows disk.new)) }
    ensures any_moment { LeavesOnly (D.shows disk.old) (D.shows disk.new)
        (ComesFrom (OnArea area Blanking) (D.shows disk.old)) }

    ensures length { OnOk result ((D.shows disk.new).lengths area ≡ 1) }
    ensures cause { HasFaultCause (D.shows disk.old).faults (D.shows disk.new).faults result }
{
    shorten(disk, area, 1)?;
    write_synced(disk, area, 0, &[CLOSED])
}

// Writes two pieces behind the end of an area, one behind the other, and syncs.
fn write_both<D: Disk>(
    disk: &mut D,
    area: Area,
    end: u64,
    first: &[u8],
    second: &[u8],
) -> Result<(), Failed>
    requires settled { IsSettled (D.shows disk.old) }
    requires at_end { (D.shows disk.old).lengths area ≡ end }

    ensures put { OnOk result (Leads
        (OnArea area (GrowsBy (first.now ++ second.now))) (D.shows disk.old) (D.shows disk.new)) }
    ensures settled { OnOk result (IsSettled (D.shows disk.new)) }
    ensures any_moment { LeavesOnly (D.shows disk.old) (D.shows disk.new)
        (ComesFrom (OnArea area Grows) (D.shows disk.old)) }

    ensures length { OnOk result
        ((D.shows disk.new).lengths area ≡ end + length first.now + length second.now) }
    ensures limit { OnOk result (end + length first.now + length second.now ≤ 2 ^ 63 - 1) }
    ensures cause { HasFaultCause (D.shows disk.old).faults (D.shows disk.new).faults result }
{
    disk.write_at(area, end, first)?;
    disk.write_at(area, end + first.len() as u64, second)?;
    disk.sync(area)
}

// Puts the rest of a head behind the closed head gate of an area, and, where there are any, bytes behind that; and
// syncs.
fn put_behind<D: Disk>(disk: &mut D, area: Area, head: &[u8], rest: &[u8]) -> Result<(), Failed>
    requires settled { IsSettled (D.shows disk.old) }
    requires one_byte { (D.shows disk.old).lengths area ≡ 1 }

    ensures put { OnOk result (Leads
        (OnArea area (GrowsBy (head.now ++ rest.now))) (D.shows disk.old) (D.shows disk.new)) }
    ensures settled { OnOk result (IsSettled (D.shows disk.new)) }
    ensures any_moment { LeavesOnly (D.shows disk.old) (D.shows disk.new)
        (ComesFrom (OnArea area Grows) (D.shows disk.old)) }

    ensures length { OnOk result ((D.shows disk.new).lengths area ≡ 1 + length head.now + length rest.now) }
    ensures limit { OnOk result (1 + length head.now + length rest.now ≤ 2 ^ 63 - 1) }
    ensures cause { HasFaultCause (D.shows disk.old).faults (D.shows disk.new).faults result }
{
    if rest.is_empty() {
        write_synced(disk, area, 1, head)
    } else {
        write_both(disk, area, 1, head, rest)
    }
}

#[tactic(auto, unfolding(crate::specs::Sealed::area_text))]
// What stands behind the head gate, up to the first gate and with it.
fn head_of(generation: u64, gate: u8) -> [u8; 17]
    ensures { result ≡ area_text generation gate [] }
{
    let g = generation.to_be_bytes();
    [
        0x49, 0x44, 0x42, 0x4c, 0x4f, 0x47, 0x30, 0x31, g[0], g[1], g[2], g[3], g[4], g[5], g[6],
        g[7], gate,
    ]
}

// Makes an area: its head, and behind that a first gate and what stands behind it.
fn make_bytes<D: Disk>(
    disk: &mut D,
    area: Area,
    generation: u64,
    gate: u8,
    rest: &[u8],
) -> Result<(), Failed>
    requires settled { IsSettled (D.shows disk.old) }

    ensures made { OnOk result (Leads
        (OnArea area (Makes (area_text generation gate rest.now))) (D.shows disk.old) (D.shows disk.new)) }
    ensures settled { OnOk result (IsSettled (D.shows disk.new)) }
    ensures any_moment { LeavesOnly (D.shows disk.old) (D.shows disk.new)
        (ComesFrom (OnArea area (Making (area_text generation gate rest.now))) (D.shows disk.old)) }

    ensures length { OnOk result ((D.shows disk.new).lengths area ≡ 18 + length rest.now) }
    ensures limit { OnOk result (18 + length rest.now ≤ 2 ^ 63 - 1) }
    ensures cause { HasFaultCause (D.shows disk.old).faults (D.shows disk.new).faults result }
{
    make_blank(disk, area)?;
    put_behind(disk, area, &head_of(generation, gate), rest)?;
    write_synced(disk, area, 0, &[OPEN])
}
