// Where a live transaction stands.
ghost use Rattle.std.specs.Prelude.{◌≡◌};
ghost use Rattle.live_tx.specs.Live.{standing_after};

use idb_keys::ErrorName;
use list_machine::Step;

/// What the last step came to.
#[derive(Clone, Copy, Debug, PartialEq, Eq)]
pub enum Standing {
    /// It goes on, or has not begun.
    Running,
    /// No entry is left.
    Idle,
    /// It has aborted; the error is `None` where the script itself aborted.
    Aborted { error: Option<ErrorName> },
    /// Memory ran out: it can only be reverted.
    Stuck,
}

/// Where a transaction stands after this step.
pub(crate) fn standing_after(step: Step) -> Standing
    ensures { result ≡ standing_after step }
{
    match step {
        Step::Did => Standing::Running,
        Step::Idle => Standing::Idle,
        Step::Aborted { error } => Standing::Aborted { error },
        Step::NoMemory => Standing::Stuck,
    }
}
