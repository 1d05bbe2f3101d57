// Reads the script from a source.
ghost use Rattle.std.specs.Prelude.{◌≤◌, ◌+◌, ℕ, Ok, Err, IfOk, IsErrOf};
ghost use Rattle.edge_traits.specs.Faults.{Rose};
ghost use Rattle.edge_traits.specs.Streams.{ConsumesAtMost};
ghost use Rattle.script_reading.specs.Places.{Reaches};
ghost use Rattle.script_runner.specs.Inputs.{reading_of, ReadsAs, ReadsTooMuch};
ghost use Rattle.script_runner.specs.declared.scripts.NoScript.TheVariants as why;

use crate::limits::MOST_SCRIPT_BYTES;
use edge_traits::{Source, SourceError, read_all};
use script_reading::{ScriptError, read_script};
use script_statements::Script;
use std::alloc::Global;

/// Why there is no script.
#[derive(Clone, Copy, Debug)]
pub(crate) enum NoScript {
    ReadFault,
    TooLong,
    BadScript { place: u64 },
    NoMemory,
}

/// What the bytes read as.
fn script_of(alloc: Global, bytes: &[u8]) -> Result<Script, ScriptError>
    ensures { Reaches (λ s. s) result (reading_of bytes.now) }
{
    read_script(alloc, bytes)
}

/// Reads the source to its end, or one byte past the longest script.
pub(crate) fn read_sessions<S: Source>(alloc: Global, source: &mut S) -> Result<Script, NoScript>
    ensures found { IfOk result (λ script. ReadsAs (S.left source.old) (S.left source.new) (Ok script)) }
    ensures fault { IsErrOf result NoScript.ReadFault → Rose (S.faults source.old) (S.faults source.new) }
    ensures too_long { IsErrOf result NoScript.TooLong
        → ReadsTooMuch (S.left source.old) (S.left source.new) }
    ensures bad { (place : ℕ) → IsErrOf result (why.BadScript place)
        → ReadsAs (S.left source.old) (S.left source.new) (Err place) }
    ensures taken { ConsumesAtMost (S.left source.old) (S.left source.new) (MOST_SCRIPT_BYTES + 1) }
    ensures count { S.faults source.old ≤ S.faults source.new }
{
    let bytes = match read_all(alloc, source, MOST_SCRIPT_BYTES + 1) {
        Ok(bytes) => bytes,
        Err(SourceError::Failed) => return Err(NoScript::ReadFault),
        Err(SourceError::NoMemory) => return Err(NoScript::NoMemory),
    };
    if bytes.len() > MOST_SCRIPT_BYTES {
        return Err(NoScript::TooLong);
    }
    match script_of(alloc, bytes.as_slice()) {
        Ok(script) => Ok(script),
        Err(ScriptError::BadScript { place }) => Err(NoScript::BadScript { place }),
        Err(ScriptError::NoMemory) => Err(NoScript::NoMemory),
    }
}
