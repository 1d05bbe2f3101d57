// A transaction finishes without starting: its body aborted it, or the host is faulted.
ghost use Rattle.std.specs.Prelude.{◌≡◌, false, true, is_some, Some, None, IfOk, IfSome, OnOk, OnErr};
ghost use Rattle.serial_order.specs.FinishEntries.{TxBody};
ghost use Rattle.script_handlers.specs.Handling.{Script};
ghost use Rattle.client_machine.specs.ClientSteps.{may_begin};
ghost use Rattle.client_parts.specs.Holding.{begun_seen};
ghost use Rattle.tx_book.specs.Entries.{has_committed};
ghost use Rattle.office_scenes.specs.Running.{IsDropped, EndsBody, DropLeads, FinishedWith, BookGoesOn};
ghost use Rattle.office_scenes.specs.Scenes.{done_of_book, is_open_end, IsAtWork, scene_of, LeadsTo};
ghost use Rattle.office_scenes.specs.Stopping.{TellsNoMore};
ghost use Rattle.item_changes.specs.Items.{Items};

use crate::entering::note;
use crate::serving::is_run;
use client_parts::BegunBody;
use disk_trait::Disk;
use idb_base::NoMemory;
use idb_calls::TxTrace;
use index_tables::Tables;
use office_scenes::{Office, fitting_laws, showing_laws, telling_laws};
use script_runs::Notes;
use session_books::SessionBook;
use session_states::{step_laws, under_way_laws};
use session_txs::{dropped_deletion_trace, end_begun};
use std::alloc::Global;

/// What is told of a transaction with this body, which ends without starting; the notes get what its handlers write.
fn end_body(
    alloc: Global,
    number: u64,
    body: Option<BegunBody>,
    notes: &mut Notes,
) -> Result<TxTrace, NoMemory>
    requires { is_some body ≡ true }
    ensures ended { IfOk result (λ trace. IfSome (begun_seen body)
        (λ b. EndsBody b trace.outcome notes.old notes.new)) }
    ensures number { IfOk result (λ trace. trace.number ≡ number) }
{
    match body {
        Some(BegunBody::Scripted(begun)) => {
            let trace = end_begun(alloc, number, begun, notes)?;
            Ok(trace)
        }
        Some(BegunBody::Deletion(_)) => Ok(dropped_deletion_trace(alloc, number)),
        None => unreachable!(),
    }
}

/// The least transaction that isn't finished finishes without starting; what is told of it.
fn end_tx(
    alloc: Global,
    office: &mut Office,
    number: u64,
    notes: &mut Notes,
) -> Result<TxTrace, NoMemory>
    requires dropped { IsDropped office.old number }
    requires at { IsAtWork None office.old notes.old }
    ensures leads { OnOk result (DropLeads number office.old notes.old office.new notes.new) }
    ensures number { IfOk result (λ trace. trace.number ≡ number) }
    ensures aborted { IfOk result (λ trace. has_committed trace.outcome ≡ false) }
{
    step_laws();
    under_way_laws();
    fitting_laws();
    showing_laws();
    telling_laws();
    let Some(tx) = office.take_unstarted(number) else {
        unreachable!()
    };
    let (kind, body) = tx.into_parts();
    let from = notes.len();
    let trace = end_body(alloc, number, body, notes)?;
    let finished = office.finish_unstarted(alloc, kind, number, trace.outcome, notes, from)?;
    if !finished {
        unreachable!();
    }
    is_run(office.desk());
    Ok(trace)
}

/// The least transaction that isn't finished finishes without starting, and is noted in the book.
pub(crate) fn drop_tx<T: Tables, D: Disk>(
    alloc: Global,
    office: &mut Office,
    number: u64,
    notes: &mut Notes,
    book: &mut SessionBook<D, T>,
) -> Result<(), NoMemory>
    requires dropped { IsDropped office.old number }
    requires at { IsAtWork None office.old notes.old }
    ensures leads { (items : Items) → OnOk result (LeadsTo None None
        (scene_of office.old notes.old (done_of_book book.old) items)
        (scene_of office.new notes.new (done_of_book book.new) items)) }
    ensures finishes { OnOk result (FinishedWith (done_of_book book.old) number (done_of_book book.new)) }
    ensures stops { OnErr result (TellsNoMore (done_of_book book.old) (done_of_book book.new)) }
    ensures open { is_open_end book.old.end ≡ true → is_open_end book.new.end ≡ true }
    ensures goes { BookGoesOn D.shows book.old book.new }
{
    let trace = end_tx(alloc, office, number, notes)?;
    note(book, &trace)?;
    Ok(())
}
