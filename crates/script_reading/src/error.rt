use idb_base::NoMemory;
use std::alloc::AllocFailed;

/// Why a document gave no script.
#[derive(Clone, Copy, Debug, PartialEq, Eq)]
pub enum ScriptError {
    /// It is no script. The place is that of the first faulty node: nodes are numbered from 1, each before those in it,
    /// the members of an object in the order of their names. It is 0 where the bytes are no JSON document, or one that
    /// nests deeper than 127.
    BadScript { place: u64 },
    /// Memory ran out.
    NoMemory,
}

impl From<NoMemory> for ScriptError {
    ghost use Rattle.std.specs.Prelude.{◌≡◌};
    ghost use Rattle.script_reading.specs.declared.error.ScriptError.TheVariants.{NoMemory as no_memory};

    ghost from_gives = { λ _ e. e ≡ no_memory };

    fn from(_: NoMemory) -> ScriptError {
        ScriptError::NoMemory
    }
}

impl<T: Drop> From<AllocFailed<T>> for ScriptError {
    ghost use Rattle.std.specs.Prelude.{◌≡◌};
    ghost use Rattle.script_reading.specs.declared.error.ScriptError.TheVariants.{NoMemory as no_memory};

    ghost from_gives = { λ _ e. e ≡ no_memory };

    fn from(_: AllocFailed<T>) -> ScriptError {
        ScriptError::NoMemory
    }
}
