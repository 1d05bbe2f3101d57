// Why a disk gives no databases.
use gate_areas::{Area, CollectError, Failed};
use gate_log::LogError;
use idb_base::NoMemory;

/// Why a disk gives no databases.
#[derive(Clone, Copy, Debug, PartialEq, Eq)]
pub enum RecoverError {
    /// The disk failed in this call.
    DiskFault,
    /// The areas are damaged, first at this place: the bytes of a log are none, those of a batch are none, or one of its records doesn't
    /// apply.
    Damaged {
        /// The area.
        area: Area,
        /// The place in it. Of a batch it is that where its payload begins.
        place: u64,
    },
    /// Memory ran out.
    NoMemory,
}

impl From<LogError> for RecoverError {
    ghost use Rattle.std.specs.Prelude.{◌≡◌};
    ghost use Rattle.idb_recovery.specs.Recovered.{recover_error_of};

    ghost from_gives = { λ error given. given ≡ recover_error_of error };

    fn from(error: LogError) -> RecoverError {
        match error {
            LogError::DiskFault => RecoverError::DiskFault,
            LogError::Damaged { area, place } => RecoverError::Damaged { area, place },
            LogError::NoMemory => RecoverError::NoMemory,
        }
    }
}

impl From<CollectError> for RecoverError {
    ghost use Rattle.std.specs.Prelude.{◌≡◌};
    ghost use Rattle.idb_recovery.specs.Recovered.{collect_error_as};

    ghost from_gives = { λ error given. given ≡ collect_error_as error };

    fn from(error: CollectError) -> RecoverError {
        match error {
            CollectError::DiskFault => RecoverError::DiskFault,
            CollectError::NoMemory => RecoverError::NoMemory,
        }
    }
}

impl From<Failed> for RecoverError {
    ghost use Rattle.std.specs.Prelude.{◌≡◌};
    ghost use Rattle.idb_recovery.specs.declared.error.RecoverError.TheVariants.{DiskFault};

    ghost from_gives = { λ _ error. error ≡ DiskFault };

    fn from(_failed: Failed) -> RecoverError {
        RecoverError::DiskFault
    }
}

impl From<NoMemory> for RecoverError {
    ghost use Rattle.std.specs.Prelude.{◌≡◌};
    ghost use Rattle.idb_recovery.specs.declared.error.RecoverError.TheVariants.{NoMemory as WantOfMemory};

    ghost from_gives = { λ _ error. error ≡ WantOfMemory };

    fn from(_none: NoMemory) -> RecoverError {
        RecoverError::NoMemory
    }
}
