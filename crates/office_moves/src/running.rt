// A transaction starts, and is run turn by turn to its end.
ghost use Rattle.std.specs.Prelude.{◌≡◌, ◌+◌, ◌<◌, List, true, false, [], drop, length, Some, None, IfOk, OnOk, IfSome, IfNone};
ghost use Rattle.idb_desk.specs.Steps.{desk_run};
ghost use Rattle.item_changes.specs.Items.{Items};
ghost use Rattle.serial_order.specs.FinishEntries.{Scripted};
ghost use Rattle.script_runs.specs.declared.notes.Note.{Note};
ghost use Rattle.client_parts.specs.Holding.{body_seen};
ghost use Rattle.tx_book.specs.Entries.{CanBeLogged};
ghost use Rattle.session_books.specs.Entering.{is_commit};
ghost use Rattle.office_scenes.specs.Measures.{beyond_memory};
ghost use Rattle.office_scenes.specs.Scenes.{DoneNow, scene_of, LeadsTo, StandsOn};
ghost use Rattle.office_scenes.specs.Running.{begun_run, TurnLeads, RunsOnInto, HasSureEnd, HoldsTx, HoldsBegun, IsDue, IsDropped, ClosesAtEnd};

use crate::entering::timed;
use crate::serving::{is_run, run_tasks};
use client_parts::{BegunBody, BegunTx};
use edge_traits::Gate;
use idb_base::NoMemory;
use index_tables::Tables;
use list_machine::Step;
use office_scenes::{
    Office, fitting_laws, limit_laws, resting_laws, showing_laws, telling_laws, version_laws,
};
use script_runs::Notes;
use session_databases::SessionDatabases;
use session_states::step_laws;
use session_txs::{SessionTx, TxEnd, begin};
use std::alloc::Global;

/// The least transaction starts, unless its body aborted it.
pub(crate) fn start_tx(office: &mut Office, number: u64) -> Option<BegunBody>
    requires due { IsDue office.old.run office.old.client number }
    requires calm { (desk_run office.old.run).board.is_faulted ≡ false }
    ensures started { (notes : List Note) (done : DoneNow) (items : Items) → IfSome result (λ body.
        LeadsTo None (Some (begun_run number (body_seen body)))
        (scene_of office.old notes done items) (scene_of office.new notes done items)) }
    ensures holds { IfSome result (λ body. HoldsBegun office.new number (body_seen body)) }
    ensures aborted { IfNone result (IsDropped office.old number) }
    ensures unchanged { IfNone result (office.new ≡ office.old) }
{
    step_laws();
    fitting_laws();
    showing_laws();
    telling_laws();
    let body = office.start(number);
    is_run(office.desk());
    body
}

/// The handlers of a turn wrote the notes from this place on.
fn take_turn(office: &mut Office, number: u64, notes: &Notes, from: usize) -> Result<(), NoMemory>
    requires idle { office.old.client.tasks ≡ [] }
    requires holds { HoldsTx office.old number }
    ensures leads { OnOk result (TurnLeads number office.old (drop from notes.now) office.new) }
    ensures holds { OnOk result (HoldsTx office.new number) }
{
    step_laws();
    fitting_laws();
    showing_laws();
    telling_laws();
    let taken = office.take_turn(number, notes, from)?;
    if !taken {
        unreachable!();
    }
    is_run(office.desk());
    Ok(())
}

/// The client runs its tasks, and then its transaction has a turn; whether it goes on.
fn run_turn<T: Tables, G: Gate>(
    alloc: Global,
    gate: &G,
    office: &mut Office,
    tx: &mut SessionTx<T>,
    number: u64,
    notes: &mut Notes,
) -> Result<bool, NoMemory>
    requires number { tx.old.number ≡ number }
    requires goes { tx.old.end ≡ None }
    requires holds { HoldsTx office.old number }
    ensures runs { OnOk result (RunsOnInto office.old notes.old tx.old office.new notes.new tx.new) }
    ensures holds { OnOk result (HoldsTx office.new number) }
    ensures on { IfOk result (λ on. on ≡ true → tx.new.end ≡ None) }
    ensures more { IfOk result (λ on. on ≡ true → length tx.new.turns ≡ length tx.old.turns + 1) }
    ensures few { IfOk result (λ on. on ≡ true → length tx.new.turns < beyond_memory) }
    ensures over { IfOk result (λ on. on ≡ false → HasSureEnd tx.new) }
    ensures idle { IfOk result (λ on. on ≡ false → office.new.client.tasks ≡ []) }
{
    run_tasks(alloc, office, notes)?;
    let from = notes.len();
    let client = office.number();
    match tx.step(gate, client, number, notes) {
        Step::NoMemory => Err(NoMemory),
        Step::Idle => Ok(false),
        Step::Did => {
            take_turn(office, number, notes, from)?;
            let _ = tx.turn_count();
            Ok(true)
        }
        Step::Aborted { .. } => {
            take_turn(office, number, notes, from)?;
            run_tasks(alloc, office, notes)?;
            Ok(false)
        }
    }
}

/// Turns of the transaction until it is at its end, with its client's tasks between them.
fn run_turns<T: Tables, G: Gate>(
    alloc: Global,
    gate: &G,
    office: &mut Office,
    tx: &mut SessionTx<T>,
    number: u64,
    notes: &mut Notes,
) -> Result<(), NoMemory>
    requires number { tx.old.number ≡ number }
    requires goes { tx.old.end ≡ None }
    requires holds { HoldsTx office.old number }
    ensures runs { OnOk result (RunsOnInto office.old notes.old tx.old office.new notes.new tx.new) }
    ensures holds { OnOk result (HoldsTx office.new number) }
    ensures over { OnOk result (HasSureEnd tx.new) }
    ensures idle { OnOk result (office.new.client.tasks ≡ []) }
{
    'turns: loop {
        let on = run_turn(alloc, gate, office, tx, number, notes)?;
        if !on {
            return Ok(());
        }
    }
}

/// A transaction that was started is run on the databases to its end; what it came to, with the durability with which the desk drew it.
pub(crate) fn close_scripted<T: Tables, G: Gate>(
    alloc: Global,
    gate: &G,
    office: &mut Office,
    number: u64,
    begun: BegunTx,
    notes: &mut Notes,
    databases: &mut SessionDatabases<T>,
) -> Result<TxEnd<T>, NoMemory>
    requires on { (done : DoneNow) × StandsOn (Some (begun_run number (Scripted begun.body)))
        (scene_of office.old notes.old done databases.old) }
    requires holds { HoldsBegun office.old number (Scripted begun.body) }
    ensures closes { IfOk result (λ end. ClosesAtEnd number begun.body office.old notes.old databases.old
        office.new notes.new databases.new end.trace end.kept end.left) }
    ensures idle { OnOk result (office.new.client.tasks ≡ []) }
    ensures holds { OnOk result (HoldsTx office.new number) }
    ensures loggable { IfOk result (λ end. is_commit end.trace ≡ true → CanBeLogged end.trace) }
{
    showing_laws();
    resting_laws();
    version_laws();
    limit_laws();
    let mut tx = begin(alloc, databases, number, begun)?;
    run_turns(alloc, gate, office, &mut tx, number, notes)?;
    let TxEnd { trace, kept, left } = tx.close(alloc);
    let trace = timed(office.desk(), trace);
    Ok(TxEnd { trace, kept, left })
}
