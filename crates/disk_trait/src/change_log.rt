// What reached a disk in memory: an entry for each change, and the bytes that were written, one after another. From it
// follow the images that a stop may have left at any moment.
ghost use Rattle.std.specs.Prelude.{◌≡◌, ◌+◌, ◌-◌, ◌<◌, ◌≤◌, [], ◌∷◌, length, reverse, vec_len, vec_capacity, IfOk};
ghost use Rattle.disk_trait.specs.Memory.Change.{Wrote, Missed, WasCut, Synced, Restarted};

use crate::Area;
use std::alloc::{AllocError, Global};
use std::marker::Model;

#[derive(Clone, Copy)]
enum Entry {
    Wrote { area: Area, from: u64, n: usize },
    Missed { area: Area, from: u64, n: usize },
    WasCut { area: Area, len: u64 },
    Synced { area: Area },
    Restarted,
}

#[derive(Drop)]
pub(crate) struct ChangeLog {
    entries: Vec<Entry>,
    written: Vec<u8>,
    limit: usize,
    total: usize,
}

impl Model for ChangeLog {
    ghost use Rattle.disk_trait.specs.Parts.{LogState};

    ghost Value = { LogState };

    ghost use Rattle.disk_trait.specs.IsLog.{log_of, HasMemory};

    ghost view = { log_of };

    ghost invariant = { HasMemory };
}

impl ChangeLog {
    // A log for so many changes, whose writes bring at most `total` bytes.
    pub(crate) fn with_room(alloc: Global, limit: usize, total: usize) -> Result<Self, AllocError>
        ensures { IfOk result (λ l. l ≡ record { history = []; spare = limit; room = total }) }
    {
        Ok(ChangeLog {
            entries: Vec::with_capacity(alloc, limit)?,
            written: Vec::with_capacity(alloc, total)?,
            limit,
            total,
        })
    }

    // For how many bytes there is room.
    pub(crate) fn room(&self) -> usize
        ensures { result ≡ self.now.room }
    {
        self.total - self.written.len()
    }

    pub(crate) fn wrote(&mut self, area: Area, from: u64, bytes: &[u8])
        requires spare { 0 < self.old.spare }
        requires room { length bytes.now ≤ self.old.room }
        ensures { self.new ≡ record {
          history = Wrote area from bytes.now ∷ self.old.history;
          spare = self.old.spare - 1;
          room = self.old.room - length bytes.now;
        } }
    {
        self.written.extend_from_slice(bytes).unwrap();
        let n = bytes.len();
        enter(&mut self.entries, Entry::Wrote { area, from, n });
    }

    pub(crate) fn missed(&mut self, area: Area, from: u64, n: usize)
        requires { 0 < self.old.spare }
        ensures { self.new ≡ record self.old {
          history = Missed area from n ∷ self.old.history;
          spare = self.old.spare - 1;
        } }
    {
        enter(&mut self.entries, Entry::Missed { area, from, n });
    }

    pub(crate) fn was_cut(&mut self, area: Area, len: u64)
        requires { 0 < self.old.spare }
        ensures { self.new ≡ record self.old {
          history = WasCut area len ∷ self.old.history;
          spare = self.old.spare - 1;
        } }
    {
        enter(&mut self.entries, Entry::WasCut { area, len });
    }

    pub(crate) fn synced(&mut self, area: Area)
        requires { 0 < self.old.spare }
        ensures { self.new ≡ record self.old {
          history = Synced area ∷ self.old.history;
          spare = self.old.spare - 1;
        } }
    {
        enter(&mut self.entries, Entry::Synced { area });
    }

    pub(crate) fn restarted(&mut self)
        requires { 0 < self.old.spare }
        ensures { self.new ≡ record self.old {
          history = Restarted ∷ self.old.history;
          spare = self.old.spare - 1;
        } }
    {
        enter(&mut self.entries, Entry::Restarted);
    }
}

fn enter(entries: &mut Vec<Entry>, entry: Entry)
    requires { vec_len entries.old < vec_capacity entries.old }
    ensures newest { reverse entries.new.items ≡ entry ∷ reverse entries.old.items }
    ensures len { vec_len entries.new ≡ vec_len entries.old + 1 }
    ensures capacity { vec_capacity entries.old ≤ vec_capacity entries.new }
{
    entries.push(entry).unwrap();
}
