// Why a change was not made.
use idb_base::NoMemory;

/// Why a change was not made of a store.
#[derive(Clone, Copy, Debug, PartialEq, Eq)]
pub enum ChangeError {
    /// The store lacks what the change needs: the record, the index or the key generator, or it has an index of that name.
    Missing,
    /// A unique index would have two rows of one key.
    Constraint,
    /// Memory ran out.
    NoMemory,
}

impl From<NoMemory> for ChangeError {
    ghost use Rattle.std.specs.Prelude.{◌≡◌};
    ghost use Rattle.store_changes.specs.declared.error.ChangeError.TheVariants.{NoMemory};

    ghost from_gives = { λ _ e. e ≡ NoMemory };

    fn from(_e: NoMemory) -> ChangeError {
        ChangeError::NoMemory
    }
}
