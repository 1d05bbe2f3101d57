// A transaction that never starts.
ghost use Rattle.std.specs.Prelude.{◌≡◌, not, IfOk, OnOk};
ghost use Rattle.request_lists.specs.Fronts.{new_front};
ghost use Rattle.request_lists.specs.Placing.{Becomes};
ghost use Rattle.serial_order.specs.FinishEntries.{front_left};
ghost use Rattle.serial_order.specs.SerialRuns.{is_aborted_phase};
ghost use Rattle.session_txs.specs.Running.{EndsUnstarted};

use crate::fronts::left_front;
use client_parts::{BegunParts, BegunTx};
use handler_calls::{attending_laws, cancel};
use idb_base::NoMemory;
use idb_calls::TxTrace;
use script_handlers::ScriptHandler;
use script_runs::Notes;
use std::alloc::Global;

/// A transaction finishes without starting: its requests are told so, in order, and the notes get what their handlers write; what is
/// told of it. One that its body aborted ends by that, and any other by the host, which is faulted, with AbortError.
pub fn end_begun(
    alloc: Global,
    number: u64,
    begun: BegunTx,
    notes: &mut Notes,
) -> Result<TxTrace, NoMemory>
    ensures ended { IfOk result (λ trace. EndsUnstarted begun.body
        (not (is_aborted_phase (front_left begun.body).phase)) trace.outcome notes.old notes.new) }
    ensures number { IfOk result (λ trace. trace.number ≡ number) }
    ensures placed { OnOk result
        (Becomes (new_front begun.body.mode begun.body.schema begun.body.names) begun.body.front) }
{
    attending_laws::<ScriptHandler>();
    let BegunParts {
        durability,
        front,
        threw,
        ..
    } = begun.into_parts();
    let front = left_front(front, threw);
    let trace = cancel(alloc, front, number, durability, notes)?;
    Ok(trace)
}
