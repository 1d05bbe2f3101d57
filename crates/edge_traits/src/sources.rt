// Where bytes come from, and the reading of a source to its end.
ghost use Rattle.std.specs.Prelude.{◌≡◌, ℕ, ◌<◌, ◌≤◌, List, Option, ◌++◌, length, IfOk, OnErr, IsErrOf, vec_len};
ghost use Rattle.std.specs.Io.KnownBytes.{Consumes, IsAtEnd, Keeps, ReadConsumes};
ghost use Rattle.edge_traits.specs.Faults.{HasFaultCause, Rose};
ghost use Rattle.edge_traits.specs.Streams.{ConsumesAtMost};
ghost use Rattle.edge_traits.specs.declared.sources.SourceError.TheVariants.{Failed as SourceFailed, NoMemory as WantOfMemory};

use crate::Failed;
use idb_base::NoMemory;
use std::alloc::{AllocError, Global};

/// Where bytes come from. A source over memory tells what is left; one over a real stream tells
/// nothing, and then the clause on content falls away, and those on the length and on faults stay.
pub trait Source {
    ghost left: { Self → Option (List ℕ) };

    ghost faults: { Self → ℕ };

    /// Takes bytes from the front of what is left, as many as the answer says, and puts them at the
    /// front of `buf`. The rest of `buf` may be anything. After `Failed` nothing was taken.
    fn read(&mut self, buf: &mut [u8]) -> Result<usize, Failed>
        ensures fits { IfOk result (λ n. n ≤ length buf.new) }
        ensures given { ReadConsumes (left self.old) (left self.new) result buf.new }
        ensures fault { HasFaultCause (faults self.old) (faults self.new) result };
}

/// Why a source was not read to its end.
#[derive(Clone, Copy, Debug, PartialEq, Eq)]
pub enum SourceError {
    /// The source failed, and counted it.
    Failed,
    /// Memory ran out.
    NoMemory,
}

impl From<Failed> for SourceError {
    ghost from_gives = { λ _ error. error ≡ SourceFailed };

    fn from(_failed: Failed) -> SourceError {
        SourceError::Failed
    }
}

impl From<NoMemory> for SourceError {
    ghost from_gives = { λ _ error. error ≡ WantOfMemory };

    fn from(_none: NoMemory) -> SourceError {
        SourceError::NoMemory
    }
}

impl From<AllocError> for SourceError {
    ghost from_gives = { λ _ error. error ≡ WantOfMemory };

    fn from(_none: AllocError) -> SourceError {
        SourceError::NoMemory
    }
}

// How many bytes one call of a source is asked for at most.
const PIECE: usize = 4096;

/// Reads a source to its end, or until it gave `limit` bytes. Fewer bytes than the limit are all
/// that were left. After an error the bytes that were read are gone from the source, and lost.
pub fn read_all<S: Source>(
    alloc: Global,
    source: &mut S,
    limit: usize,
) -> Result<Vec<u8>, SourceError>
    ensures whole { IfOk result (λ v. Consumes (S.left source.old) (S.left source.new) v.items) }
    ensures within { IfOk result (λ v. vec_len v ≤ limit) }
    ensures to_end { IfOk result (λ v. vec_len v < limit → IsAtEnd (S.left source.new)) }
    ensures taken { ConsumesAtMost (S.left source.old) (S.left source.new) limit }
    ensures failed { IsErrOf result SourceError.Failed
        → Rose (S.faults source.old) (S.faults source.new) }
    ensures count { S.faults source.old ≤ S.faults source.new }
{
    let mut bytes = Vec::new(alloc);
    while bytes.len() < limit {
        let most = limit - bytes.len();
        if read_piece(source, &mut bytes, most)? == 0 {
            return Ok(bytes);
        }
    }
    Ok(bytes)
}

// Reads once, at most `most` bytes, onto the end of `bytes`. It makes room first, so that want of
// memory takes nothing from the source.
fn read_piece<S: Source>(
    source: &mut S,
    bytes: &mut Vec<u8>,
    most: usize,
) -> Result<usize, SourceError>
    requires { 0 < most }
    ensures grown { IfOk result (λ n. (piece : List ℕ) × (length piece ≡ n) × (n ≤ most)
        × (bytes.new.items ≡ bytes.old.items ++ piece)
        × Consumes (S.left source.old) (S.left source.new) piece) }
    ensures at_end { IfOk result (λ n. n ≡ 0 → IsAtEnd (S.left source.new)) }
    ensures unchanged { OnErr result (bytes.new.items ≡ bytes.old.items) }
    ensures kept { OnErr result (Keeps (S.left source.old) (S.left source.new)) }
    ensures failed { IsErrOf result SourceError.Failed
        → Rose (S.faults source.old) (S.faults source.new) }
    ensures count { S.faults source.old ≤ S.faults source.new }
{
    let room = most.min(PIECE);
    bytes.reserve(room)?;
    let mut buf = [0; PIECE];
    let piece = &mut buf[..room];
    let n = source.read(piece)?;
    bytes.extend_from_slice(&piece[..n]).unwrap();
    Ok(n)
}
