// A disk in memory, which fails and stops by a plan. Its own calls say exactly what each does; that it keeps the trait
// is proved from that.
ghost use Rattle.std.specs.Prelude.{◌≡◌, ◌⊎◌, ◌↔◌, ◌+◌, ◌-◌, ◌^◌, ◌<◌, ◌≤◌, length, take, drop, IsTrue, IsErr, IfOk, OnOk, is_ok, if◌then◌else◌};
ghost use Rattle.edge_traits.specs.Fakes.{IsListed};
ghost use Rattle.edge_traits.specs.Faults.{HasFaultCause};
ghost use Rattle.disk_trait.specs.Areas.{area_of};
ghost use Rattle.disk_trait.specs.Memory.{reads_of, bytes_of, new_disk, IsStopped, IsSpent, MustFail, with_change, with_write, with_cut, restarted, with_call};
ghost use Rattle.disk_trait.specs.Memory.Change.{Synced};

use crate::content::Content;
use crate::{Area, Disk, DiskPlan};
use edge_traits::{CallPlan, Failed};
use idb_base::NoMemory;
use std::alloc::Global;
use std::marker::Model;

const LONGEST: u64 = 0x7fff_ffff_ffff_ffff;

/// A disk in memory, which fails and stops by a plan. It takes all its memory at the start.
///
/// A call fails where the plan lists its number, while a stop holds, unless it is a `restart`, and past the number of
/// calls; a write also where there is no room for its bytes. A write or a cut that fails is done all the same, as on a disk that can't say so, but
/// for two: past the number of calls nothing reaches the disk, and without room reads stay and the range is in doubt.
#[derive(Drop)]
pub struct MemoryDisk {
    content: Content,
    calls: CallPlan,
    limit: u64,
    stop_after: Option<u64>,
}

impl Model for MemoryDisk {
    ghost use Rattle.disk_trait.specs.Memory.{MemoryState};

    ghost Value = { MemoryState };

    ghost use Rattle.disk_trait.specs.IsDisk.{memory_of, HasEntries};

    ghost view = { memory_of };

    ghost invariant = { HasEntries };
}

impl MemoryDisk {
    /// A disk with two empty areas, for `room` bytes in all the writes to come, and for so many calls. It takes five
    /// times the room, and an entry a call. `NoMemory` comes also where the room is more than an area can have.
    pub fn with_room(
        alloc: Global,
        room: u64,
        calls: u64,
        plan: DiskPlan,
    ) -> Result<MemoryDisk, NoMemory>
        ensures { IfOk result (λ d.
            d ≡ new_disk room calls plan.fail_at.items plan.stop_after plan.image) }
    {
        if room > LONGEST {
            return Err(NoMemory);
        }
        let DiskPlan {
            fail_at,
            stop_after,
            image,
        } = plan;
        Ok(MemoryDisk {
            content: Content::with_room(alloc, calls as usize, room as usize, image)?,
            calls: CallPlan::new(fail_at),
            limit: calls,
            stop_after,
        })
    }

    /// What reads of an area give now.
    pub fn bytes(&self, area: Area) -> &[u8]
        ensures { result.now ≡ area_of area (reads_of self.now) }
    {
        self.content.bytes(area)
    }

    /// How many calls were made. A count of 64 bits stands still at its end.
    pub fn calls_made(&self) -> u64
        ensures { result ≡ self.now.calls.made }
    {
        self.calls.made()
    }

    /// For how many more bytes there is room.
    pub fn room(&self) -> u64
        ensures { result ≡ self.now.room }
    {
        self.content.room() as u64
    }

    /// How many calls failed. A count of 64 bits stands still at its end.
    pub fn fault_count(&self) -> u64
        ensures { result ≡ self.now.calls.faults }
    {
        self.calls.faults()
    }

    /// The length of an area in bytes.
    pub fn len(&mut self, area: Area) -> Result<u64, Failed>
        ensures failed { IsErr result ↔ MustFail self.old }
        ensures length { IfOk result (λ n. n ≡ length (area_of area (reads_of self.old))) }
        ensures limit { IfOk result (λ n. n ≤ 2 ^ 63 - 1) }
        ensures after { self.new ≡ with_call result self.old }
        ensures cause { HasFaultCause self.old.calls.faults self.new.calls.faults result }
    {
        let blocked = self.is_blocked();
        self.calls.count(blocked)?;
        Ok(self.content.bytes(area).len() as u64)
    }

    /// Fills `buf` with the bytes of an area from a place on.
    pub fn read(&mut self, area: Area, from: u64, buf: &mut [u8]) -> Result<(), Failed>
        requires { from + length buf.old ≤ length (area_of area (reads_of self.old)) }
        ensures failed { IsErr result ↔ MustFail self.old }
        ensures bytes { OnOk result
            (buf.new ≡ take (length buf.old) (drop from (area_of area (reads_of self.old)))) }
        ensures after { self.new ≡ with_call result self.old }
        ensures cause { HasFaultCause self.old.calls.faults self.new.calls.faults result }
    {
        let blocked = self.is_blocked();
        self.calls.count(blocked)?;
        let rest = &self.content.bytes(area)[from as usize..];
        buf.copy_from_slice(&rest[..buf.len()]);
        Ok(())
    }

    /// Writes over what stands there, and past the end.
    pub fn write_at(&mut self, area: Area, from: u64, bytes: &[u8]) -> Result<(), Failed>
        requires { from ≤ length (area_of area (reads_of self.old)) }
        ensures failed { IsErr result ↔ (MustFail self.old ⊎ (self.old.room < length bytes.now)) }
        ensures limit { OnOk result (from + length bytes.now ≤ 2 ^ 63 - 1) }
        ensures after { self.new ≡ with_call result (with_write area from bytes.now self.old) }
        ensures cause { HasFaultCause self.old.calls.faults self.new.calls.faults result }
    {
        let is_full = bytes.len() > self.content.room();
        let blocked = self.is_blocked();
        if self.calls.made() < self.limit {
            self.content.write(area, from, bytes);
        }
        self.calls.count(blocked || is_full)
    }

    /// Cuts an area to a length.
    pub fn cut(&mut self, area: Area, len: u64) -> Result<(), Failed>
        requires { len ≤ length (area_of area (reads_of self.old)) }
        ensures failed { IsErr result ↔ MustFail self.old }
        ensures after { self.new ≡ with_call result (with_cut area len self.old) }
        ensures cause { HasFaultCause self.old.calls.faults self.new.calls.faults result }
    {
        let blocked = self.is_blocked();
        if self.calls.made() < self.limit {
            self.content.cut(area, len);
        }
        self.calls.count(blocked)
    }

    /// Pins an area: a stop then leaves what reads give in it.
    pub fn sync(&mut self, area: Area) -> Result<(), Failed>
        ensures failed { IsErr result ↔ MustFail self.old }
        ensures after { self.new ≡ with_call result
            (if is_ok result then with_change (Synced area) self.old else self.old) }
        ensures cause { HasFaultCause self.old.calls.faults self.new.calls.faults result }
    {
        let blocked = self.is_blocked();
        self.calls.count(blocked)?;
        self.content.sync(area);
        Ok(())
    }

    /// Takes up the image that the plan picks, and ends a stop that holds.
    pub fn restart(&mut self) -> Result<(), Failed>
        ensures failed { IsErr result ↔ (IsListed self.old.calls ⊎ IsSpent self.old) }
        ensures after { self.new ≡ with_call result
            (if is_ok result then restarted self.old else self.old) }
        ensures cause { HasFaultCause self.old.calls.faults self.new.calls.faults result }
    {
        let made = self.calls.made();
        self.calls.count(self.limit <= made)?;
        self.content.restart();
        if let Some(k) = self.stop_after
            && k <= made
        {
            self.stop_after = None;
        }
        Ok(())
    }

    // A stop holds, or all calls were made.
    fn is_blocked(&self) -> bool
        ensures { IsTrue result ↔ (IsStopped self.now ⊎ IsSpent self.now) }
    {
        let made = self.calls.made();
        self.limit <= made || matches!(self.stop_after, Some(k) if k <= made)
    }
}

impl Disk for MemoryDisk {
    ghost use Rattle.std.specs.Prelude.{refl};
    ghost use Rattle.disk_trait.specs.Memory.{disk_view, reads_of};
    ghost use Rattle.disk_trait.specs.MemoryLaws.{reads_are_left, told_length, memory_counts_now, memory_only_now, memory_since_earlier};

    ghost shows = { disk_view };

    ghost reads_are_an_image = { λ d areas told. reads_are_left d.image d.history areas told };

    ghost images_are_told = { λ d image left. (reads_of d, refl) };

    ghost lengths_are_told = { λ d areas area told. told_length (reads_of d) areas area told };

    ghost counts_now = { λ d t image le left. memory_counts_now d.image d.history t image left };

    ghost only_now = { λ d image left. memory_only_now d.image d.history image left };

    ghost since_earlier = { λ d s t image le left.
        memory_since_earlier d.image d.history s t image le left };

    fn fault_count(&self) -> u64 {
        MemoryDisk::fault_count(self)
    }

    fn len(&mut self, area: Area) -> Result<u64, Failed> {
        MemoryDisk::len(self, area)
    }

    fn read(&mut self, area: Area, from: u64, buf: &mut [u8]) -> Result<(), Failed> {
        MemoryDisk::read(self, area, from, buf)
    }

    fn write_at(&mut self, area: Area, from: u64, bytes: &[u8]) -> Result<(), Failed> {
        MemoryDisk::write_at(self, area, from, bytes)
    }

    fn cut(&mut self, area: Area, len: u64) -> Result<(), Failed> {
        MemoryDisk::cut(self, area, len)
    }

    fn sync(&mut self, area: Area) -> Result<(), Failed> {
        MemoryDisk::sync(self, area)
    }

    fn restart(&mut self) -> Result<(), Failed> {
        MemoryDisk::restart(self)
    }
}
