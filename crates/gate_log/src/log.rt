// The log over one area of a disk.
ghost use Rattle.std.proofs.Props.{props};
ghost use Rattle.gate_log.specs.Kept.{IsKept};

use crate::error::{AppendError, LogError};
use crate::open::{Opened, open_disk, other};
use gate_areas::{Area, Batches, Disk, Frame, LiveArea, collect, make_area, make_area_with, seal};
use std::alloc::Global;

/// A log of batches in one area of a disk.
#[derive(Drop)]
pub struct GateLog<D: Disk> {
    disk: D,
    live: LiveArea,
    seen: Option<u64>,
    ghost kept: { IsKept (D.shows disk) live seen } by { Prim.hlevel props },
}

impl<D: Disk> GateLog<D> {
    ghost use Rattle.std.specs.Prelude.{◌≡◌, ◌⊎◌, ◌↔◌, ◌<◌, ◌≤◌, ◌+◌, ◌-◌, ◌^◌, ◌∷◌, [], ℕ, Some, None, Ok, length, IsOk, IfOk, IfErr, OnOk, OnErr, IsErrOf};
    ghost use Rattle.edge_traits.specs.Faults.{Rose};
    ghost use Rattle.disk_trait.specs.declared.area.Area.{Area};
    ghost use Rattle.disk_trait.specs.Areas.{other_area};
    ghost use Rattle.disk_trait.specs.Disk.{WhereTold, EachImage, NoNewImage, OnArea, IsSettled, ComesFrom, LeavesOnly, Untouched};
    ghost use Rattle.gate_areas.specs.Found.{Damaged, Live, Nothing, found_of, batches_in, HasRoom, TakesOver};
    ghost use Rattle.gate_areas.specs.LiveBatches.{EndBy, live_found};
    ghost use Rattle.gate_areas.specs.Steps.{KeepsFront};
    ghost use Rattle.gate_log.specs.Causes.{HasReadCause};
    ghost use Rattle.gate_log.specs.Content.{with_batch, switched_found, HasBatches, IsFoundAs, IsFoundAsOr, IsBeforeOrAfter, IsInDoubt, AreaStays};
    ghost use Rattle.gate_log.specs.Opened.{FoundAs, IsOldOr, SameFound};
    ghost use Rattle.gate_log.specs.Log.{IsNew, disk_of, live_of, live_area, generation_of, last_gate, failed_at, content_of, disk_after, disk_opened};

    /// Makes a log in an area, where both are blank. A stop at any moment of it leaves no batch. `NoMemory` and
    /// `Damaged` never come.
    pub fn create(disk: D, area: Area, generation: u64) -> Result<GateLog<D>, (LogError, D)>
        requires settled { IsSettled (D.shows disk) }
        requires blank { WhereTold (D.shows disk) (λ areas. found_of areas ≡ Nothing) }
        requires generation { 1 ≤ generation }

        ensures created { IfOk result (IsNew D.shows area generation []) }
        ensures sealed { IfOk result (λ log. EachImage (D.shows (disk_of log))
            (λ image. found_of image ≡ Live area generation [])) }
        ensures any_moment { LeavesOnly (D.shows disk) (D.shows (disk_after result))
            (ComesFrom (TakesOver area (Live area generation [])) (D.shows disk)) }

        ensures disk_fault { IfErr result (λ err. (err.0 ≡ LogError.DiskFault)
            × Rose (D.shows disk).faults (D.shows err.1).faults) }
        ensures count { (D.shows disk).faults ≤ (D.shows (disk_after result)).faults }
    {
        let mut disk = disk;
        match make_area(&mut disk, area, generation) {
            Ok(live) => Ok(GateLog {
                disk,
                live,
                seen: None,
            }),
            Err(_) => Err((LogError::DiskFault, disk)),
        }
    }

    /// Makes a log in an area, with a first batch that is already sealed. A stop at any moment of it leaves what was
    /// found before, or this batch; the other area stays as it was. `NoMemory` and `Damaged` never come.
    pub fn create_with(
        disk: D,
        area: Area,
        generation: u64,
        first: &Frame,
    ) -> Result<GateLog<D>, (LogError, D)>
        requires settled { IsSettled (D.shows disk) }
        requires room { WhereTold (D.shows disk) (λ areas. HasRoom area generation (found_of areas)) }
        requires generation { 1 ≤ generation }

        ensures created { IfOk result (IsNew D.shows area generation ((17, first.now) ∷ [])) }
        ensures sealed { IfOk result (λ log. EachImage (D.shows (disk_of log))
            (λ image. found_of image ≡ Live area generation ((17, first.now) ∷ []))) }
        ensures any_moment { LeavesOnly (D.shows disk) (D.shows (disk_after result))
            (ComesFrom (TakesOver area (Live area generation ((17, first.now) ∷ []))) (D.shows disk)) }

        ensures disk_fault { IfErr result (λ err. (err.0 ≡ LogError.DiskFault)
            × Rose (D.shows disk).faults (D.shows err.1).faults) }
        ensures count { (D.shows disk).faults ≤ (D.shows (disk_after result)).faults }
    {
        let mut disk = disk;
        match make_area_with(&mut disk, area, generation, first) {
            Ok(live) => Ok(GateLog {
                disk,
                live,
                seen: None,
            }),
            Err(_) => Err((LogError::DiskFault, disk)),
        }
    }

    /// Opens the log that a disk holds. It syncs both areas, reads them, and repairs the end of the live one, so that
    /// what stands behind the last batch can never count. Two blank areas give a new log in area 0 with generation 1.
    /// Only the payloads of the live area are read. A batch of the live area takes two device calls, one of the other area
    /// takes one. `Damaged` names the lesser area first, and its first place. After an error the disk may be loaded again.
    pub fn load(alloc: Global, disk: D) -> Result<(GateLog<D>, Batches), (LogError, D)>
        // What is found of what reads give, and a log that has it.
        ensures found { IfOk result (λ opened. WhereTold (D.shows disk)
            (λ areas. FoundAs (live_of opened.0) opened.1 (found_of areas))) }
        ensures same_batches { IfOk result (λ opened. WhereTold (D.shows disk)
            (λ areas. batches_in areas ≡ Ok opened.1)) }
        ensures has { IfOk result (λ opened. HasBatches (content_of D.shows opened.0) opened.1) }
        ensures sealed { IfOk result (λ opened. EachImage (D.shows (disk_of opened.0))
            (λ image. found_of image ≡ live_found (live_of opened.0) opened.1)) }
        ensures faultless { IfOk result (λ opened. failed_at opened.0 ≡ None) }
        ensures bounded { IfOk result (λ opened. EndBy (last_gate opened.0) opened.1) }

        // A stop at any moment leaves an image from before or, from the two syncs on, one that is found as the same.
        ensures any_moment { LeavesOnly (D.shows disk) (D.shows (disk_opened result))
            (IsOldOr (D.shows disk) (ComesFrom SameFound (D.shows disk))) }
        ensures left { IfErr result (λ err. NoNewImage (D.shows disk) (D.shows err.1)
            ⊎ EachImage (D.shows err.1) (ComesFrom SameFound (D.shows disk))) }
        ensures left_synced { IfErr result (λ err. (err.0 ≡ LogError.DiskFault → ⊥)
            → EachImage (D.shows err.1) (ComesFrom SameFound (D.shows disk))) }

        ensures disk_fault { IfErr result (λ err. err.0 ≡ LogError.DiskFault
            → Rose (D.shows disk).faults (D.shows err.1).faults) }
        ensures damaged { IfErr result (λ err. (area : Area) (place : ℕ) → err.0 ≡ LogError.Damaged area place
            → WhereTold (D.shows disk) (λ areas. found_of areas ≡ Damaged area place)) }
        ensures count { (D.shows disk).faults ≤ (D.shows (disk_opened result)).faults }
    {
        let mut disk = disk;
        match open_disk(alloc, &mut disk) {
            Ok(opened) => {
                let Opened { live, batches } = opened;
                let log = GateLog {
                    disk,
                    live,
                    seen: None,
                };
                Ok((log, batches))
            }
            Err(error) => Err((error, disk)),
        }
    }

    /// Reads the log's batches again. After an error the log is as before. `Damaged` never comes.
    pub fn batches(&mut self, alloc: Global) -> Result<Batches, LogError>
        ensures found { IfOk result (HasBatches (content_of D.shows self.old)) }
        ensures bounded { IfOk result (EndBy (last_gate self.old)) }
        ensures cause { HasReadCause
            (D.shows (disk_of self.old)).faults (D.shows (disk_of self.new)).faults result }

        ensures untouched { Untouched (D.shows (disk_of self.old)) (D.shows (disk_of self.new)) }
        ensures same { content_of D.shows self.new ≡ content_of D.shows self.old }
        ensures same_live { live_of self.new ≡ live_of self.old }
        ensures same_fault { failed_at self.new ≡ failed_at self.old }
    {
        Ok(collect(alloc, &mut self.disk, self.live)?)
    }

    /// The generation of the log's area.
    pub fn generation(&self) -> u64
        ensures { result ≡ generation_of self.now }
    {
        self.live.generation
    }

    /// Appends a batch, in four device calls. At `Ok` it is sealed: from then on a stop at any moment leaves it. After
    /// `DiskFault` it may be there or not, and each later append or switch is refused.
    pub fn append(&mut self, frame: &Frame) -> Result<(), AppendError>
        ensures appended { OnOk result (content_of D.shows self.new
            ≡ with_batch (last_gate self.old, frame.now) (content_of D.shows self.old)) }
        ensures sealed { OnOk result (EachImage (D.shows (disk_of self.new))
            (IsFoundAs (live_of self.new) (content_of D.shows self.new))) }
        ensures failed { OnErr result (content_of D.shows self.new ≡ content_of D.shows self.old) }
        ensures in_doubt { IsErrOf result AppendError.DiskFault → EachImage (D.shows (disk_of self.new))
            (IsBeforeOrAfter (live_of self.new) (content_of D.shows self.new) (last_gate self.new, frame.now)) }

        // A stop at any moment leaves the batches from before, or these and the new one. The bytes before the last
        // gate stay.
        ensures any_moment { failed_at self.old ≡ None
            → LeavesOnly (D.shows (disk_of self.old)) (D.shows (disk_of self.new))
            (IsBeforeOrAfter (live_of self.old) (content_of D.shows self.old) (last_gate self.old, frame.now)) }
        ensures stays { failed_at self.old ≡ None
            → LeavesOnly (D.shows (disk_of self.old)) (D.shows (disk_of self.new)) (ComesFrom
            (OnArea (live_area self.old) (KeepsFront (last_gate self.old))) (D.shows (disk_of self.old))) }

        ensures same_area { live_area self.new ≡ live_area self.old }
        ensures same_generation { generation_of self.new ≡ generation_of self.old }
        ensures next_gate { OnOk result (last_gate self.new ≡ last_gate self.old + 9 + length frame.now) }
        ensures same_gate { OnErr result (last_gate self.new ≡ last_gate self.old) }

        // When it is refused.
        ensures ok { IsOk result → (failed_at self.old ≡ None) × (failed_at self.new ≡ None) }
        ensures disk_fault { IsErrOf result AppendError.DiskFault → (failed_at self.old ≡ None)
            × (Rose (D.shows (disk_of self.old)).faults (D.shows (disk_of self.new)).faults)
            × (failed_at self.new ≡ Some (D.shows (disk_of self.new)).faults) }
        ensures count { (D.shows (disk_of self.old)).faults ≤ (D.shows (disk_of self.new)).faults }
        ensures faulted { (seen : ℕ) → IsErrOf result (AppendError.Faulted seen)
            ↔ (failed_at self.old ≡ Some seen) }
        ensures refused { (seen : ℕ) → failed_at self.old ≡ Some seen → self.new ≡ self.old }
    {
        match self.seen {
            Some(seen) => Err(AppendError::Faulted { seen }),
            None => match seal(&mut self.disk, self.live, frame) {
                Ok(next) => {
                    self.live = next;
                    Ok(())
                }
                Err(_) => {
                    self.seen = Some(self.disk.fault_count());
                    Err(AppendError::DiskFault)
                }
            },
        }
    }

    /// Goes over into the other area, of the next generation, with a first batch that is sealed from then on. After
    /// `DiskFault` the log is as it was, but that a stop may leave the other area as the live one, and each later append
    /// or switch is refused.
    pub fn switch(&mut self, first: &Frame) -> Result<(), AppendError>
        requires { generation_of self.old < 2 ^ 64 - 1 }

        ensures switched { OnOk result (HasBatches (content_of D.shows self.new) ((17, first.now) ∷ [])) }
        ensures sealed { OnOk result (EachImage (D.shows (disk_of self.new))
            (λ image. found_of image ≡ switched_found (live_of self.old) first.now)) }
        ensures failed { OnErr result (content_of D.shows self.new ≡ content_of D.shows self.old) }
        ensures in_doubt { IsErrOf result AppendError.DiskFault → EachImage (D.shows (disk_of self.new))
            (IsFoundAsOr (live_of self.new) (content_of D.shows self.new)
            (Some (switched_found (live_of self.old) first.now))) }

        // A stop at any moment leaves the log from before, or the new one. The area from before stays as it was.
        ensures any_moment { failed_at self.old ≡ None
            → LeavesOnly (D.shows (disk_of self.old)) (D.shows (disk_of self.new))
            (IsFoundAsOr (live_of self.old) (content_of D.shows self.old)
            (Some (switched_found (live_of self.old) first.now))) }
        ensures stays { failed_at self.old ≡ None
            → LeavesOnly (D.shows (disk_of self.old)) (D.shows (disk_of self.new))
            (ComesFrom (AreaStays (live_area self.old)) (D.shows (disk_of self.old))) }

        ensures next_area { OnOk result (live_area self.new ≡ other_area (live_area self.old)) }
        ensures next_generation { OnOk result (generation_of self.new ≡ generation_of self.old + 1) }
        ensures next_gate { OnOk result (last_gate self.new ≡ 17 + 9 + length first.now) }
        ensures bounded { OnOk result (EndBy (last_gate self.new) ((17, first.now) ∷ [])) }
        ensures same_live { OnErr result (live_of self.new ≡ live_of self.old) }

        // When it is refused.
        ensures ok { IsOk result → (failed_at self.old ≡ None) × (failed_at self.new ≡ None) }
        ensures disk_fault { IsErrOf result AppendError.DiskFault → (failed_at self.old ≡ None)
            × (Rose (D.shows (disk_of self.old)).faults (D.shows (disk_of self.new)).faults)
            × (failed_at self.new ≡ Some (D.shows (disk_of self.new)).faults) }
        ensures count { (D.shows (disk_of self.old)).faults ≤ (D.shows (disk_of self.new)).faults }
        ensures faulted { (seen : ℕ) → IsErrOf result (AppendError.Faulted seen)
            ↔ (failed_at self.old ≡ Some seen) }
        ensures refused { (seen : ℕ) → failed_at self.old ≡ Some seen → self.new ≡ self.old }
    {
        match self.seen {
            Some(count) => Err(AppendError::Faulted { seen: count }),
            None => {
                let area = other(self.live.area);
                match make_area_with(&mut self.disk, area, self.live.generation + 1, first) {
                    Ok(live) => {
                        self.live = live;
                        Ok(())
                    }
                    Err(_) => {
                        let count = self.disk.fault_count();
                        self.seen = Some(count);
                        Err(AppendError::DiskFault)
                    }
                }
            }
        }
    }

    /// The count of faults that was seen when an append or a switch failed; `None` until then. It takes no memory.
    pub fn failed(&self) -> Option<u64>
        ensures value { result ≡ failed_at self.now }
        ensures counted { (seen : ℕ) → failed_at self.now ≡ Some seen
            → seen ≤ (D.shows (disk_of self.now)).faults }
        ensures headed { 17 ≤ last_gate self.now }
        ensures limit { last_gate self.now < 2 ^ 63 - 1 }

        // A stop now leaves the log or, after an append or a switch that failed, the log or one thing more.
        ensures sealed { failed_at self.now ≡ None → EachImage (D.shows (disk_of self.now))
            (IsFoundAs (live_of self.now) (content_of D.shows self.now)) }
        ensures in_doubt { (seen : ℕ) → failed_at self.now ≡ Some seen
            → IsInDoubt (D.shows (disk_of self.now)) (live_of self.now) }
    {
        self.seen
    }

    /// The area that it writes to.
    pub fn area(&self) -> Area
        ensures { result ≡ live_area self.now }
    {
        self.live.area
    }

    /// The disk. Where nothing failed, a stop leaves what reads give, and the log is what is found of that. After an
    /// append or a switch that failed a stop leaves the log, or one thing more.
    pub fn into_disk(self) -> D
        ensures disk { result ≡ disk_of self }
        ensures settled { failed_at self ≡ None → IsSettled (D.shows result) }
        ensures found { failed_at self ≡ None → WhereTold (D.shows result)
            (IsFoundAs (live_of self) (content_of D.shows self)) }
        ensures sealed { failed_at self ≡ None → EachImage (D.shows result)
            (IsFoundAs (live_of self) (content_of D.shows self)) }
        ensures in_doubt { (seen : ℕ) → failed_at self ≡ Some seen
            → IsInDoubt (D.shows result) (live_of self) }
    {
        self.disk
    }
}
