// Where bytes go, and the writing of all of them.
ghost use Rattle.std.specs.Prelude.{ℕ, ◌<◌, ◌≤◌, List, Option, length, IfOk, OnOk};
ghost use Rattle.std.specs.Io.KnownBytes.{Appends, WriteAppends};
ghost use Rattle.edge_traits.specs.Faults.{HasFaultCause};
ghost use Rattle.edge_traits.specs.Streams.{AppendsFront};

use crate::Failed;

/// Where bytes go. A sink over memory tells what it holds; one over a real stream tells nothing, and
/// then the clause on content falls away, and those on lengths and on faults stay.
pub trait Sink {
    ghost held: { Self → Option (List ℕ) };

    ghost faults: { Self → ℕ };

    /// Appends bytes from the front of `bytes`, as many as the answer says; after `Failed`, none.
    fn write(&mut self, bytes: &[u8]) -> Result<usize, Failed>
        ensures fits { IfOk result (λ n. n ≤ length bytes.now) }
        ensures moves { IfOk result (λ n. 0 < length bytes.now → 0 < n) }
        ensures appended { WriteAppends (held self.old) (held self.new) result bytes.now }
        ensures fault { HasFaultCause (faults self.old) (faults self.new) result };
}

/// Writes all the bytes, in as many calls as the sink needs. After `Failed` the sink took a front of
/// them, perhaps none.
pub fn write_all<K: Sink>(sink: &mut K, bytes: &[u8]) -> Result<(), Failed>
    ensures whole { OnOk result (Appends (K.held sink.old) (K.held sink.new) bytes.now) }
    ensures front { AppendsFront (K.held sink.old) (K.held sink.new) bytes.now }
    ensures fault { HasFaultCause (K.faults sink.old) (K.faults sink.new) result }
{
    let mut done = 0;
    while done < bytes.len() {
        done += sink.write(&bytes[done..])?;
    }
    Ok(())
}
