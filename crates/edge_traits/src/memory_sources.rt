// Sources over memory: one that never fails, and one whose failing calls are listed.
ghost use Rattle.std.specs.Prelude.{◌≡◌, ◌↔◌, ℕ, Some, IfOk, IsErr, length, min, take};
ghost use Rattle.std.specs.Io.KnownBytes.{ReadConsumes};
ghost use Rattle.edge_traits.specs.Faults.{HasFaultCause};
ghost use Rattle.edge_traits.specs.Fakes.{CountsCall, IsListed, no_calls};

use crate::Failed;
use crate::call_plans::CallPlan;
use crate::sources::Source;
use std::marker::Model;

/// A source over memory that never fails. Callers see it as the bytes that are left.
#[derive(Drop)]
pub struct SteadySource {
    bytes: Vec<u8>,
    next: usize,
}

impl Model for SteadySource {
    ghost use Rattle.std.specs.Prelude.{ℕ, List, drop, ◌≤◌, length};

    ghost Value = { List ℕ };

    ghost view = { λ s. drop s.next s.bytes.items };

    ghost invariant = { λ s. s.next ≤ length s.bytes.items };
}

impl SteadySource {
    /// A source of these bytes.
    pub fn new(bytes: Vec<u8>) -> Self
        ensures { result ≡ bytes.items }
    {
        SteadySource { bytes, next: 0 }
    }
}

impl Source for SteadySource {
    ghost left = { λ s. Some s };

    ghost faults = { λ s. 0 };

    /// Gives as many bytes as are left and fit, and never fails.
    fn read(&mut self, buf: &mut [u8]) -> Result<usize, Failed>
        ensures steady { result ≡ Ok (min (length buf.new) (length self.old)) }
        ensures given { ReadConsumes (Some self.old) (Some self.new) result buf.new }
    {
        let count = copy_front(&self.bytes[self.next..], buf);
        self.next += count;
        Ok(count)
    }
}

/// A source over memory. Its calls are numbered from 1, and those that are listed fail.
#[derive(Drop)]
pub struct MemorySource {
    bytes: SteadySource,
    calls: CallPlan,
}

impl Model for MemorySource {
    ghost use Rattle.edge_traits.specs.Fakes.{SourceState};

    ghost Value = { SourceState };

    ghost view = { λ s. record { left = s.bytes; calls = s.calls } };
}

impl MemorySource {
    /// A source of these bytes, whose calls with the numbers in `fail_at` fail.
    pub fn new(bytes: Vec<u8>, fail_at: Vec<u64>) -> Self
        ensures { result ≡ record { left = bytes.items; calls = no_calls fail_at.items } }
    {
        MemorySource {
            bytes: SteadySource::new(bytes),
            calls: CallPlan::new(fail_at),
        }
    }
}

impl Source for MemorySource {
    ghost left = { λ s. Some s.left };

    ghost faults = { λ s. s.calls.faults };

    /// Fails where the number of this call is listed, and else gives as many bytes as are left and fit.
    fn read(&mut self, buf: &mut [u8]) -> Result<usize, Failed>
        ensures listed { IsErr result ↔ IsListed self.old.calls }
        ensures counted { CountsCall self.old.calls self.new.calls result }
        ensures full { IfOk result (λ n. n ≡ min (length buf.new) (length self.old.left)) }
        ensures given { ReadConsumes (Some self.old.left) (Some self.new.left) result buf.new }
        ensures fault { HasFaultCause self.old.calls.faults self.new.calls.faults result }
    {
        self.calls.count(false)?;
        self.bytes.read(buf)
    }
}

// Copies bytes from the front of one slice to the front of another, as many as there are and fit.
fn copy_front(from: &[u8], to: &mut [u8]) -> usize
    ensures count { result ≡ min (length to.new) (length from.now) }
    ensures copied { take result to.new ≡ take result from.now }
{
    let count = from.len().min(to.len());
    to[..count].copy_from_slice(&from[..count]);
    count
}
