// A layer above a log, at its least: how many batches there are, and how many a stop may leave. It is proved from the
// log's public clauses alone, so it shows that they say enough: its counter never wraps, it goes over into the other
// area in place, and it keeps a log in every state.
ghost use Rattle.std.specs.Prelude.{◌≡◌, ◌+◌, ◌*◌, ◌≤◌, length, true};
ghost use Rattle.std.specs.Option.{ForSome};
ghost use Rattle.std.proofs.Props.{props};
ghost use Rattle.disk_trait.specs.Disk.{EachImage};
ghost use Rattle.gate_log.specs.Found.{batches_in};
ghost use Rattle.gate_log.specs.Journal.{is_count};
ghost use Rattle.gate_log.specs.Log.{content_of, disk_of, last_gate};

use crate::{AppendError, Disk, Frame, GateLog, LogError};
use std::alloc::Global;

// The number of batches, and the other number that a stop may leave after a fault.
#[derive(Drop)]
pub struct Journal<D: Disk> {
    log: GateLog<D>,
    number: u64,
    other: u64,
    ghost counts: { ForSome (content_of D.shows log) (λ batches. length batches ≡ number) } by { Prim.hlevel props },
    ghost fits: { 17 + 9 * number ≤ last_gate log },
    ghost images: { EachImage (D.shows (disk_of log))
        (λ image. is_count number other (batches_in image) ≡ true) } by { Prim.hlevel props },
}

impl<D: Disk> Journal<D> {
    ghost use Rattle.std.specs.Prelude.{◌≡◌, ◌⊎◌, ◌+◌, ◌-◌, ◌^◌, ◌<◌, ℕ, None, IfOk, IfErr, OnOk, OnErr};
    ghost use Rattle.disk_trait.specs.declared.area.Area.{Area};
    ghost use Rattle.disk_trait.specs.Disk.{WhereTold, EachImage, ComesFrom, LeavesOnly};
    ghost use Rattle.gate_log.specs.Content.{AreaStays};
    ghost use Rattle.gate_log.specs.Found.{Damaged, found_of, batches_in};
    ghost use Rattle.gate_log.specs.Journal.{HasCount, is_count};
    ghost use Rattle.gate_log.specs.Log.{disk_of, live_area, generation_of, failed_at};

    pub fn open(alloc: Global, disk: D) -> Result<Journal<D>, (LogError, D)>
        ensures found { IfOk result (λ journal. WhereTold (D.shows disk) (HasCount journal.number)) }
        ensures sealed { IfOk result
            (λ journal. EachImage (D.shows (disk_of journal.log)) (HasCount journal.number)) }
        // Where it is damaged, each image is, at the same place.
        ensures damaged { IfErr result (λ err. (area : Area) (place : ℕ) → err.0 ≡ LogError.Damaged area place
            → EachImage (D.shows err.1) (λ image. found_of image ≡ Damaged area place)) }
    {
        match GateLog::load(alloc, disk) {
            Ok(opened) => {
                let (log, batches) = opened;
                let number = batches.len() as u64;
                Ok(Journal {
                    log,
                    number,
                    other: number,
                })
            }
            Err(error) => Err(error),
        }
    }

    pub fn commit(&mut self, frame: &Frame) -> Result<(), AppendError>
        ensures committed { OnOk result (self.new.number ≡ self.old.number + 1) }
        ensures sealed { OnOk result (EachImage (D.shows (disk_of self.new.log)) (HasCount self.new.number)) }
        ensures any_moment { failed_at self.old.log ≡ None
            → LeavesOnly (D.shows (disk_of self.old.log)) (D.shows (disk_of self.new.log))
            (λ image. HasCount self.old.number image ⊎ HasCount (self.old.number + 1) image) }
        ensures failed { OnErr result (self.new.number ≡ self.old.number) }
    {
        let _ = self.log.failed();
        match self.log.append(frame) {
            Ok(()) => {
                self.number += 1;
                self.other = self.number;
                Ok(())
            }
            Err(AppendError::DiskFault) => {
                self.other = self.number + 1;
                Err(AppendError::DiskFault)
            }
            Err(AppendError::Faulted { seen }) => Err(AppendError::Faulted { seen }),
        }
    }

    // The area from before stays as it was.
    pub fn compact(&mut self, first: &Frame) -> Result<(), AppendError>
        requires { generation_of self.old.log < 2 ^ 64 - 1 }
        ensures compacted { OnOk result (self.new.number ≡ 1) }
        ensures sealed { OnOk result (EachImage (D.shows (disk_of self.new.log)) (HasCount self.new.number)) }
        ensures any_moment { failed_at self.old.log ≡ None
            → LeavesOnly (D.shows (disk_of self.old.log)) (D.shows (disk_of self.new.log))
            (λ image. HasCount self.old.number image ⊎ HasCount 1 image) }
        ensures stays { failed_at self.old.log ≡ None
            → LeavesOnly (D.shows (disk_of self.old.log)) (D.shows (disk_of self.new.log))
            (ComesFrom (AreaStays (live_area self.old.log)) (D.shows (disk_of self.old.log))) }
        ensures failed { OnErr result (self.new.number ≡ self.old.number) }
    {
        match self.log.switch(first) {
            Ok(()) => {
                self.number = 1;
                self.other = 1;
                Ok(())
            }
            Err(AppendError::DiskFault) => {
                self.other = 1;
                Err(AppendError::DiskFault)
            }
            Err(AppendError::Faulted { seen }) => Err(AppendError::Faulted { seen }),
        }
    }

    pub fn close(self) -> D
        ensures left { EachImage (D.shows result)
            (λ image. is_count self.number self.other (batches_in image) ≡ true) }
    {
        self.log.into_disk()
    }
}
