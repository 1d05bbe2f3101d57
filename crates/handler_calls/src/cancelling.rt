// A transaction that never starts.
ghost use Rattle.std.specs.Prelude.{◌≡◌, ◌++◌, List, map, IfOk, OnOk};
ghost use Rattle.request_lists.specs.Fronts.{Front, entry_map, front_map};
ghost use Rattle.list_machine.specs.Machine.{Cancels};
ghost use Rattle.handler_calls.specs.Attending.{IsAttended};
ghost use Rattle.handler_calls.specs.Cancelling.{cancel_error, cancelled, cancelled_trace};

use crate::handling::cancel_all;
use idb_base::NoMemory;
use idb_calls::{Deltas, Events, Outcome, TxTrace};
use idb_keys::{Durability, ErrorName};
use request_lists::{Handler, Phase, TxFront};
use std::alloc::Global;

/// The transaction of this front never starts: each of its requests is told that it aborted, in order. The trace has no change, what
/// the requests were told, and the error by which the body aborted the transaction, or AbortError where it did not.
pub fn cancel<H: Handler>(
    alloc: Global,
    front: TxFront<H>,
    number: u64,
    durability: Durability,
    notes: &mut H::Notes,
) -> Result<TxTrace, NoMemory>
    requires { IsAttended front }
    ensures trace { IfOk result (λ trace. trace ≡ cancelled_trace number durability front) }
    ensures told { OnOk result ((last : Front H.Plain) × (ls : List H.Line)
        × Cancels H.reacts H.writes (map (entry_map H.plain) front.waiting)
        (front_map H.plain (cancelled front)) last ls
        × (H.lines notes.new ≡ H.lines notes.old ++ ls)) }
{
    let mut front = front;
    let mode = front.mode();
    let error = cancel_error(front.phase());
    front.end_as(Phase::Aborted { error });
    let mut told = Events::new(alloc);
    match cancel_all(&mut front, &mut told, notes) {
        Ok(()) => {
            return Ok(TxTrace {
                number,
                mode,
                durability,
                deltas: Deltas::new(alloc),
                lines: told,
                outcome: Outcome::Aborted {
                    error,
                    doubt: false,
                },
            });
        }
        Err(NoMemory) => return Err(NoMemory),
    }
}

/// The error by which the body aborted, or AbortError.
fn cancel_error(phase: Phase) -> Option<ErrorName>
    ensures { result ≡ cancel_error phase }
{
    match phase {
        Phase::Aborted { error } => error,
        _ => Some(ErrorName::AbortError),
    }
}
