// Why a record was not made.
use idb_base::NoMemory;

/// Why the changes of a record were not made.
#[derive(Clone, Copy, Debug, PartialEq, Eq)]
pub enum RecordError {
    /// A change lacks what it names, or at the record's end a unique index has two rows of one key, or a limit is passed.
    Damaged,
    /// Memory ran out.
    NoMemory,
}

impl From<NoMemory> for RecordError {
    ghost use Rattle.std.specs.Prelude.{◌≡◌};
    ghost use Rattle.record_changes.specs.declared.error.RecordError.TheVariants.{NoMemory};

    ghost from_gives = { λ _ e. e ≡ NoMemory };

    fn from(_e: NoMemory) -> RecordError {
        RecordError::NoMemory
    }
}
