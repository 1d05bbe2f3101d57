// What the entry that is run next asks for.
ghost use Rattle.std.specs.Prelude.{◌≡◌};
ghost use Rattle.request_lists.specs.Fronts.{Front};
ghost use Rattle.live_tx.specs.Turning.{error_of_phase, first_kind};

use idb_keys::ErrorName;
use request_lists::{ListEntry, Phase, TxFront};

/// What an entry of the list asks for.
#[derive(Clone, Copy, Debug, PartialEq, Eq)]
pub enum Next {
    /// No entry waits.
    Nothing,
    /// A request with a handler of its own.
    Request,
    /// The request of a cursor.
    Turn,
    /// A call of an upgrade.
    Change,
}

/// What the entry that is run next asks for.
pub(crate) fn first_kind<H: Drop>(front: &TxFront<H>) -> Next
    ensures { result ≡ first_kind front.now.waiting }
{
    match front.first() {
        Some(entry) => match entry {
            ListEntry::Request { .. } => Next::Request,
            ListEntry::Turn { .. } => Next::Turn,
            ListEntry::Change { .. } => Next::Change,
        },
        None => Next::Nothing,
    }
}

/// The error of a transaction that has aborted; `None` of any other.
pub(crate) fn error_of_phase(phase: Phase) -> Option<Option<ErrorName>>
    ensures { result ≡ error_of_phase phase }
{
    match phase {
        Phase::Active => None,
        Phase::Inactive => None,
        Phase::Committing => None,
        Phase::Committed => None,
        Phase::Aborted { error } => Some(error),
    }
}
