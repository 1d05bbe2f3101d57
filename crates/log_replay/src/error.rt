// Why batches give no databases.
use idb_base::NoMemory;

/// Why batches give no databases.
#[derive(Clone, Copy, Debug, PartialEq, Eq)]
pub enum ReplayError {
    /// The bytes of a batch are none, or one of its records doesn't apply.
    Damaged {
        /// Where its payload begins: nine bytes behind its gate.
        place: u64,
    },
    /// Memory ran out.
    NoMemory,
}

impl From<NoMemory> for ReplayError {
    ghost use Rattle.std.specs.Prelude.{◌≡◌};
    ghost use Rattle.log_replay.specs.declared.error.ReplayError.TheVariants.{NoMemory};

    ghost from_gives = { λ _ e. e ≡ NoMemory };

    fn from(_e: NoMemory) -> ReplayError {
        ReplayError::NoMemory
    }
}
