// A sink over memory, with a given room, whose failing calls are listed.
ghost use Rattle.std.specs.Prelude.{◌≡◌, ◌↔◌, ◌⊎◌, ◌-◌, ◌<◌, ◌≤◌, [], Some, IfOk, IsErr, length, min};
ghost use Rattle.std.specs.Io.KnownBytes.{WriteAppends};
ghost use Rattle.edge_traits.specs.Faults.{HasFaultCause};
ghost use Rattle.edge_traits.specs.Fakes.{CountsCall, IsListed, no_calls};

use crate::Failed;
use crate::call_plans::CallPlan;
use crate::sinks::Sink;
use idb_base::NoMemory;
use std::alloc::Global;
use std::marker::Model;

/// A sink over memory, which has all its memory from the start. Its calls are numbered from 1. Those
/// that are listed fail, and so does one that brings bytes where no room is left.
#[derive(Drop)]
pub struct MemorySink {
    bytes: Vec<u8>,
    room: usize,
    calls: CallPlan,
}

impl Model for MemorySink {
    ghost use Rattle.std.specs.Prelude.{◌≤◌, ℕ, length, vec_capacity};
    ghost use Rattle.edge_traits.specs.Fakes.{SinkState};

    ghost Value = { SinkState };

    ghost view = { λ s. record { held = s.bytes.items; room = s.room; calls = s.calls } };

    ghost invariant = { λ s. (length s.bytes.items ≤ s.room) × (s.room ≤ vec_capacity s.bytes) };
}

impl MemorySink {
    /// An empty sink that holds at most `room` bytes, whose calls with the numbers in `fail_at` fail.
    pub fn with_room(alloc: Global, room: usize, fail_at: Vec<u64>) -> Result<Self, NoMemory>
        ensures { IfOk result (λ s. s ≡ record { held = []; room = room; calls = no_calls fail_at.items }) }
    {
        Ok(MemorySink {
            bytes: Vec::with_capacity(alloc, room)?,
            room,
            calls: CallPlan::new(fail_at),
        })
    }

    /// The bytes that it took.
    pub fn bytes(&self) -> &[u8]
        ensures held { result.now ≡ self.now.held }
        ensures within { length self.now.held ≤ self.now.room }
    {
        &self.bytes
    }
}

impl Sink for MemorySink {
    ghost held = { λ s. Some s.held };

    ghost faults = { λ s. s.calls.faults };

    /// Fails where the number of this call is listed, or where there are bytes and no room is left;
    /// and else takes as many bytes as still fit.
    fn write(&mut self, bytes: &[u8]) -> Result<usize, Failed>
        ensures failed { IsErr result ↔ (IsListed self.old.calls
            ⊎ ((0 < length bytes.now) × (self.old.room ≤ length self.old.held))) }
        ensures counted { CountsCall self.old.calls self.new.calls result }
        ensures full { IfOk result
            (λ n. n ≡ min (length bytes.now) (self.old.room - length self.old.held)) }
        ensures room { self.new.room ≡ self.old.room }
        ensures appended { WriteAppends (Some self.old.held) (Some self.new.held) result bytes.now }
        ensures fault { HasFaultCause self.old.calls.faults self.new.calls.faults result }
    {
        let free = self.room - self.bytes.len();
        self.calls.count(free == 0 && !bytes.is_empty())?;
        let count = bytes.len().min(free);
        self.bytes.extend_from_slice(&bytes[..count]).unwrap();
        Ok(count)
    }
}
