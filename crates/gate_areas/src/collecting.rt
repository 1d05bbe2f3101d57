// The payloads before a gate.
ghost use Rattle.std.specs.Prelude.{◌≡◌, ℕ, ◌+◌, ◌≤◌, [], ◌∷◌, ◌++◌, length, take, drop, vec_len, IfOk, IsErrOf};
ghost use Rattle.edge_traits.specs.Faults.{Rose};
ghost use Rattle.disk_trait.specs.Areas.{area_of};
ghost use Rattle.disk_trait.specs.Disk.{WhereTold, Untouched};
ghost use Rattle.gate_areas.specs.declared.collecting.CollectError.TheVariants.{DiskFault, NoMemory as WantOfMemory};
ghost use Rattle.gate_areas.specs.Sealed.{BatchList};
ghost use Rattle.gate_areas.specs.Fronts.{IsFront};
ghost use Rattle.gate_areas.specs.Scan.{GateIs, GateFits};
ghost use Rattle.gate_areas.specs.LiveBatches.{live_batches, Begins, EndBy};

use crate::batches::{Batch, Batches, Payload};
use crate::live::LiveArea;
use crate::scan::{Gate, gate_in, read_gate};
use disk_trait::{Area, Disk, Failed};
use idb_base::NoMemory;
use std::alloc::{AllocError, Global};

/// Why batches were not read.
#[derive(Clone, Copy, Debug, PartialEq, Eq)]
pub enum CollectError {
    /// The disk failed in this call.
    DiskFault,
    /// Memory ran out.
    NoMemory,
}

impl From<Failed> for CollectError {
    ghost from_gives = { λ _ error. error ≡ DiskFault };

    fn from(_failed: Failed) -> CollectError {
        CollectError::DiskFault
    }
}

impl From<NoMemory> for CollectError {
    ghost from_gives = { λ _ error. error ≡ WantOfMemory };

    fn from(_none: NoMemory) -> CollectError {
        CollectError::NoMemory
    }
}

impl From<AllocError> for CollectError {
    ghost from_gives = { λ _ error. error ≡ WantOfMemory };

    fn from(_none: AllocError) -> CollectError {
        CollectError::NoMemory
    }
}

/// Reads the batches of the live area, with their payloads, in one device call a batch and at most two more.
pub fn collect<D: Disk>(
    alloc: Global,
    disk: &mut D,
    live: LiveArea,
) -> Result<Batches, CollectError>
    requires { 17 ≤ live.gate }

    ensures collected { IfOk result (λ found. WhereTold (D.shows disk.old) (λ areas.
        Begins live areas → found ≡ live_batches live areas)) }
    ensures bounded { IfOk result (EndBy live.gate) }
    ensures untouched { Untouched (D.shows disk.old) (D.shows disk.new) }
    ensures count { (D.shows disk.old).faults ≤ (D.shows disk.new).faults }
    ensures disk_fault { IsErrOf result CollectError.DiskFault
        → Rose (D.shows disk.old).faults (D.shows disk.new).faults }
{
    collect_before(alloc, disk, live.area, live.gate)
}

// Reads the batches of an area before a gate.
fn collect_before<D: Disk>(
    alloc: Global,
    disk: &mut D,
    area: Area,
    gate: u64,
) -> Result<Batches, CollectError>
    requires { 17 ≤ gate }

    ensures collected { IfOk result (λ found. WhereTold (D.shows disk.old) (λ areas.
        (generation : ℕ) (batches : BatchList) → gate ≤ length (area_of area areas)
        → IsFront generation gate (take gate (area_of area areas)) batches → found ≡ batches)) }
    ensures bounded { IfOk result (EndBy gate) }
    ensures untouched { Untouched (D.shows disk.old) (D.shows disk.new) }
    ensures count { (D.shows disk.old).faults ≤ (D.shows disk.new).faults }
    ensures disk_fault { IsErrOf result CollectError.DiskFault
        → Rose (D.shows disk.old).faults (D.shows disk.new).faults }
{
    let mut batches = Batches::new(alloc);
    // Only an area whose content is untold can be shorter.
    if disk.len(area)? < gate {
        return Ok(batches);
    }
    let mut place = 17;
    let mut here = read_gate(disk, area, gate, place)?;
    'batches: loop {
        let Gate::Open(length) = here else {
            return Ok(batches);
        };
        let batch = read_batch(alloc, disk, area, gate, place + 9, length)?;
        batches.push(Batch {
            place,
            payload: batch.payload,
        })?;
        place += 9 + length;
        here = batch.behind;
    }
}

// A payload, and what stands at the gate behind it.
#[derive(Drop)]
struct PayloadAndGate {
    payload: Payload,
    behind: Gate,
}

// Reads the bytes of a payload and, in the same device call, the gate behind it.
fn read_batch<D: Disk>(
    alloc: Global,
    disk: &mut D,
    area: Area,
    end: u64,
    from: u64,
    len: u64,
) -> Result<PayloadAndGate, CollectError>
    requires within { from + len ≤ end }
    requires end { end ≤ (D.shows disk.old).lengths area }

    ensures payload { IfOk result (λ batch. WhereTold (D.shows disk.old) (λ areas.
        batch.payload ≡ take len (drop from (area_of area areas)))) }
    ensures size { IfOk result (λ batch. length batch.payload ≡ len) }
    ensures behind { IfOk result (λ batch. WhereTold (D.shows disk.old) (λ areas. (last : ℕ)
        → GateIs batch.behind (drop (from + len) (take end (area_of area areas) ++ last ∷ [])))) }
    ensures fits { IfOk result (λ batch. GateFits batch.behind (from + len) end) }
    ensures untouched { Untouched (D.shows disk.old) (D.shows disk.new) }
    ensures count { (D.shows disk.old).faults ≤ (D.shows disk.new).faults }
    ensures disk_fault { IsErrOf result CollectError.DiskFault
        → Rose (D.shows disk.old).faults (D.shows disk.new).faults }
{
    let ahead = (end - (from + len)).min(9);
    let mut bytes = read_bytes(alloc, disk, area, from, len + ahead)?;
    let behind = gate_in(&bytes[len as usize..], from + len, end);
    bytes.truncate(len as usize);
    Ok(PayloadAndGate {
        payload: Payload::from_vec(bytes),
        behind,
    })
}

// Reads bytes into a list of their own.
fn read_bytes<D: Disk>(
    alloc: Global,
    disk: &mut D,
    area: Area,
    from: u64,
    len: u64,
) -> Result<Vec<u8>, CollectError>
    requires { from + len ≤ (D.shows disk.old).lengths area }

    ensures bytes { IfOk result (λ bytes. WhereTold (D.shows disk.old) (λ areas.
        bytes.items ≡ take len (drop from (area_of area areas)))) }
    ensures size { IfOk result (λ bytes. vec_len bytes ≡ len) }
    ensures untouched { Untouched (D.shows disk.old) (D.shows disk.new) }
    ensures count { (D.shows disk.old).faults ≤ (D.shows disk.new).faults }
    ensures disk_fault { IsErrOf result CollectError.DiskFault
        → Rose (D.shows disk.old).faults (D.shows disk.new).faults }
{
    let mut bytes = Vec::from_elem(alloc, 0, len as usize)?;
    disk.read(area, from, &mut bytes)?;
    Ok(bytes)
}
