// Why the program stops before all sessions are reported.
ghost use Rattle.std.specs.Prelude.{◌≡◌};
ghost use Rattle.script_runner.specs.Stops.{stop_of_recovery};

use disk_trait::Area;
use idb_recovery::RecoverError;

/// Why the program stops before all sessions are reported.
#[derive(Clone, Copy, Debug)]
pub(crate) enum Stop {
    /// The disk failed as it was started again, or opened.
    DiskFault,
    /// What it holds is damaged.
    Damaged { area: Area, place: u64 },
    /// The sink failed.
    WriteFault,
    /// Memory ran out.
    NoMemory,
}

/// Why a session wasn't opened.
pub(crate) fn unopened(error: RecoverError) -> Stop
    ensures { result ≡ stop_of_recovery error }
{
    match error {
        RecoverError::DiskFault => Stop::DiskFault,
        RecoverError::Damaged { area, place } => Stop::Damaged { area, place },
        RecoverError::NoMemory => Stop::NoMemory,
    }
}
