use idb_base::NoMemory;
use std::alloc::AllocFailed;

/// Why nothing was read.
#[derive(Clone, Copy, Debug, PartialEq, Eq)]
pub enum SpellingError {
    /// No spelling stands there.
    NotInGrammar,
    /// Memory ran out.
    NoMemory,
}

impl From<NoMemory> for SpellingError {
    ghost use Rattle.std.specs.Prelude.{◌≡◌};
    ghost use Rattle.value_bytes.specs.declared.error.SpellingError.TheVariants.{NoMemory as no_memory};

    ghost from_gives = { λ _ e. e ≡ no_memory };

    fn from(_: NoMemory) -> SpellingError {
        SpellingError::NoMemory
    }
}

impl<T: Drop> From<AllocFailed<T>> for SpellingError {
    ghost use Rattle.std.specs.Prelude.{◌≡◌};
    ghost use Rattle.value_bytes.specs.declared.error.SpellingError.TheVariants.{NoMemory as no_memory};

    ghost from_gives = { λ _ e. e ≡ no_memory };

    fn from(_: AllocFailed<T>) -> SpellingError {
        SpellingError::NoMemory
    }
}
