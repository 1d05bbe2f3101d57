// Why a log was not opened, or a batch not appended.
ghost use Rattle.std.specs.Prelude.{◌≡◌};
ghost use Rattle.gate_log.specs.declared.error.LogError.TheVariants.{DiskFault};

use gate_areas::{Area, CollectError, Failed};

/// Why a log was not opened.
#[derive(Clone, Copy, Debug, PartialEq, Eq)]
pub enum LogError {
    /// The disk failed in this call.
    DiskFault,
    /// The areas are damaged, first at this place.
    Damaged { area: Area, place: u64 },
    /// Memory ran out.
    NoMemory,
}

/// Why a batch was not appended, or the log did not go over into the other area.
#[derive(Clone, Copy, Debug, PartialEq, Eq)]
pub enum AppendError {
    /// The disk failed in this call. A stop may leave the log with the batch, or the one from before.
    DiskFault,
    /// An append or a switch failed before, and the disk's count of faults then was this.
    Faulted { seen: u64 },
}

impl From<Failed> for LogError {
    ghost from_gives = { λ _ error. error ≡ DiskFault };

    fn from(_failed: Failed) -> LogError {
        LogError::DiskFault
    }
}

impl From<CollectError> for LogError {
    ghost use Rattle.gate_log.specs.Errors.{log_error_of};

    ghost from_gives = { λ read error. error ≡ log_error_of read };

    fn from(read: CollectError) -> LogError {
        match read {
            CollectError::DiskFault => LogError::DiskFault,
            CollectError::NoMemory => LogError::NoMemory,
        }
    }
}
