// A transaction aborts.
ghost use Rattle.std.specs.Prelude.{◌≡◌, [], OnOk};
ghost use Rattle.list_machine.specs.Machine.{with_waiting};
ghost use Rattle.list_machine.specs.Seeing.{pulled_reacts, pulled_writes};
ghost use Rattle.entry_runs.specs.Courses.{restored};
ghost use Rattle.handler_calls.specs.Attending.{IsAttended};
ghost use Rattle.handler_calls.specs.Cancelling.{cancel_error};
ghost use Rattle.live_tx.specs.Live.{abort_error};
ghost use Rattle.live_tx.specs.Turning.{CancelsInto};

use entry_runs::Course;
use handler_calls::cancel_all;
use idb_base::NoMemory;
use idb_calls::Events;
use idb_keys::ErrorName;
use index_tables::Tables;
use request_lists::{Handler, Phase, TxFront};

/// The database before is back, and then the entries that wait are told, in order.
pub(crate) fn abort_all<T: Tables, H: Handler>(
    front: &mut TxFront<H>,
    course: &mut Course<T>,
    error: Option<ErrorName>,
    told: &mut Events,
    notes: &mut H::Notes,
) -> Result<(), NoMemory>
    requires { IsAttended front.old }
    ensures told { OnOk result (CancelsInto (pulled_reacts H.plain H.reacts) (pulled_writes H.plain H.writes)
        front.old error front.new (H.lines notes.old) (H.lines notes.new) told.old told.new) }
    ensures course { course.new ≡ restored course.old }
{
    course.restore();
    front.end_as(Phase::Aborted { error });
    cancel_all(front, told, notes)
}

/// No entry waits any more, and nobody is told. It takes no memory.
pub(crate) fn drop_entries<H: Drop>(front: &mut TxFront<H>)
    ensures { front.new ≡ with_waiting front.old [] }
{
    while let Some(entry) = front.take_first() {
        drop(entry);
    }
}

/// The error by which it had aborted, or AbortError.
pub(crate) fn cancel_error(phase: Phase) -> Option<ErrorName>
    ensures { result ≡ cancel_error phase }
{
    match phase {
        Phase::Aborted { error } => error,
        _ => Some(ErrorName::AbortError),
    }
}

/// The error by which it had aborted, or this one.
pub(crate) fn abort_error(phase: Phase, error: Option<ErrorName>) -> Option<ErrorName>
    ensures { result ≡ abort_error phase error }
{
    match phase {
        Phase::Aborted { error: own } => own,
        _ => error,
    }
}
