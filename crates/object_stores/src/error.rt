// Why a store did not change.
use idb_base::NoMemory;

/// Why a record was not stored.
#[derive(Clone, Copy, Debug, PartialEq, Eq)]
pub enum StoreError {
    /// The key generator has no number left, `add` found a record of the same key, or a unique index would have two rows of
    /// one key.
    Constraint,
    /// Memory ran out.
    NoMemory,
}

impl From<NoMemory> for StoreError {
    ghost use Rattle.std.specs.Prelude.{◌≡◌};
    ghost use Rattle.object_stores.specs.declared.error.StoreError.TheVariants.{NoMemory};

    ghost from_gives = { λ _ e. e ≡ NoMemory };

    fn from(_e: NoMemory) -> StoreError {
        StoreError::NoMemory
    }
}
