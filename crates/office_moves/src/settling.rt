// A transaction at its end is entered in the book, and finishes as the book answers.
ghost use Rattle.std.specs.Prelude.{◌≡◌, ◌⊎◌, true, [], Some, None, OnOk, OnErr};
ghost use Rattle.idb_desk.specs.Steps.{desk_run};
ghost use Rattle.idb_desk.specs.Refusals.{is_allowed};
ghost use Rattle.desk_steps.specs.declared.steps.DeskStep.TheVariants as step;
ghost use Rattle.item_changes.specs.Items.{Items};
ghost use Rattle.log_history.specs.Kept.{Dropped};
ghost use Rattle.serial_order.specs.FinishEntries.{Deletion};
ghost use Rattle.session_states.specs.Telling.{RunningTx};
ghost use Rattle.office_scenes.specs.Showing.{IsSoundKept};
ghost use Rattle.tx_book.specs.Entries.{CanBeLogged};
ghost use Rattle.session_books.specs.Entering.{is_commit};
ghost use Rattle.office_scenes.specs.Scenes.{done_of_book, is_open_end, scene_of, IsAtWork, LeadsTo, StandsOn};
ghost use Rattle.office_scenes.specs.Running.{begun_run, EndLeads, DoubtLeads, IsClosed, StandsClosed, FinishedWith, HoldsTx, HoldsBegun, BookGoesOn};
ghost use Rattle.office_scenes.specs.Stopping.{TellsNoMore, TellsOf};

use crate::entering::{enter, timed};
use crate::serving::is_run;
use clone_values::Text;
use disk_trait::Disk;
use idb_base::NoMemory;
use idb_calls::Outcome;
use idb_keys::ErrorName;
use idb_schema::Schema;
use index_tables::Tables;
use loggable_changes::loggable_change_laws;
use office_scenes::{Office, fitting_laws, limit_laws, resting_laws, showing_laws, telling_laws};
use script_handlers::ScriptHandler;
use script_runs::Notes;
use serial_order::{applying_laws, serial_laws};
use session_books::SessionBook;
use session_databases::{SessionDatabases, part_laws};
use session_states::{step_laws, under_way_laws};
use session_txs::{TxEnd, delete_database, deletion_trace};
use std::alloc::Global;

/// The started transaction finishes with this outcome.
fn finish_tx(
    alloc: Global,
    office: &mut Office,
    number: u64,
    outcome: Outcome,
    kept: Option<Schema>,
    notes: &mut Notes,
) -> Result<(), NoMemory>
    requires idle { office.old.client.tasks ≡ [] }
    requires holds { HoldsTx office.old number }
    requires allowed { is_allowed (desk_run office.old.run)
        (step.Leaves office.old.client.number number outcome kept) ≡ true }
    requires sound { IsSoundKept kept }
    ensures { OnOk result (EndLeads number outcome kept office.old notes.old office.new notes.new) }
{
    step_laws();
    under_way_laws();
    fitting_laws();
    showing_laws();
    limit_laws();
    resting_laws();
    applying_laws::<ScriptHandler>();
    serial_laws::<ScriptHandler>();
    let finished = office.finish(alloc, number, outcome, kept, notes)?;
    if !finished {
        unreachable!();
    }
    is_run(office.desk());
    Ok(())
}

/// The disk failed as the commit of the started transaction was written: the host is faulted, and the transaction finishes aborted with
/// UnknownError, in doubt.
fn doubt_tx(
    alloc: Global,
    office: &mut Office,
    number: u64,
    notes: &mut Notes,
) -> Result<(), NoMemory>
    requires idle { office.old.client.tasks ≡ [] }
    requires holds { HoldsTx office.old number }
    requires at { (t : RunningTx) × ((t.number ≡ number) × IsAtWork (Some t) office.old notes.old) }
    ensures { OnOk result (DoubtLeads number office.old notes.old office.new notes.new) }
{
    step_laws();
    under_way_laws();
    fitting_laws();
    showing_laws();
    telling_laws();
    if !office.fault() {
        unreachable!();
    }
    is_run(office.desk());
    let outcome = Outcome::Aborted {
        error: Some(ErrorName::UnknownError),
        doubt: true,
    };
    let finished = office.finish(alloc, number, outcome, None, notes)?;
    if !finished {
        unreachable!();
    }
    is_run(office.desk());
    Ok(())
}

/// A schema in memory is one that a program can have.
fn is_sound(kept: &Option<Schema>)
    ensures { IsSoundKept kept.now }
{
    if let Some(schema) = kept {
        let _ = schema.len();
    }
}

/// A transaction that came to its end is entered in the book. Its part goes back into the databases, as it left it, and it finishes; or where
/// the disk failed as its commit was written its part goes back as it was, and it finishes in doubt.
pub(crate) fn settle_tx<T: Tables, D: Disk>(
    alloc: Global,
    office: &mut Office,
    number: u64,
    end: TxEnd<T>,
    notes: &mut Notes,
    databases: &mut SessionDatabases<T>,
    book: &mut SessionBook<D, T>,
) -> Result<(), NoMemory>
    requires closed { (t : RunningTx) × ((items : Items) × StandsClosed t items number office.old notes.old
        (done_of_book book.old) databases.old end.trace end.kept end.left) }
    requires idle { office.old.client.tasks ≡ [] }
    requires holds { HoldsTx office.old number }
    requires loggable { is_commit end.trace ≡ true → CanBeLogged end.trace }
    requires runs { book.old.end ≡ Dropped }
    ensures leads { (t : RunningTx) (items : Items) → t.number ≡ number
        → IsClosed t items office.old databases.old end.trace end.kept end.left
        → OnOk result (LeadsTo (Some t) None
        (scene_of office.old notes.old (done_of_book book.old) items)
        (scene_of office.new notes.new (done_of_book book.new) databases.new)) }
    ensures finishes { OnOk result (FinishedWith (done_of_book book.old) number (done_of_book book.new)) }
    ensures stops { (t : RunningTx) (items : Items) → t.number ≡ number
        → IsClosed t items office.old databases.old end.trace end.kept end.left
        → OnErr result (TellsNoMore (done_of_book book.old) (done_of_book book.new)
        ⊎ TellsOf t items office.old (done_of_book book.old) (done_of_book book.new)) }
    ensures open { OnOk result (is_open_end book.new.end ≡ true) }
    ensures goes { BookGoesOn D.shows book.old book.new }
{
    telling_laws();
    limit_laws();
    resting_laws();
    applying_laws::<ScriptHandler>();
    serial_laws::<ScriptHandler>();
    let TxEnd { trace, kept, left } = end;
    is_sound(&kept);
    left.stand_sound(databases);
    let stands = enter(book, &trace)?;
    if !stands {
        left.take_back(databases)?;
        doubt_tx(alloc, office, number, notes)?;
        return Ok(());
    }
    left.keep(databases)?;
    finish_tx(alloc, office, number, trace.outcome, kept, notes)?;
    Ok(())
}

/// A deletion that was started is entered in the book. Its database goes, and it finishes; or where the disk failed as its commit was written
/// the database stays, and it finishes in doubt.
pub(crate) fn settle_deletion<T: Tables, D: Disk>(
    alloc: Global,
    office: &mut Office,
    number: u64,
    name: Text,
    notes: &mut Notes,
    databases: &mut SessionDatabases<T>,
    book: &mut SessionBook<D, T>,
) -> Result<(), NoMemory>
    requires on { StandsOn (Some (begun_run number (Deletion name)))
        (scene_of office.old notes.old (done_of_book book.old) databases.old) }
    requires holds { HoldsBegun office.old number (Deletion name) }
    requires runs { book.old.end ≡ Dropped }
    ensures leads { OnOk result (LeadsTo (Some (begun_run number (Deletion name))) None
        (scene_of office.old notes.old (done_of_book book.old) databases.old)
        (scene_of office.new notes.new (done_of_book book.new) databases.new)) }
    ensures finishes { OnOk result (FinishedWith (done_of_book book.old) number (done_of_book book.new)) }
    ensures stops { OnErr result (TellsNoMore (done_of_book book.old) (done_of_book book.new)
        ⊎ TellsOf (begun_run number (Deletion name)) databases.old office.old
        (done_of_book book.old) (done_of_book book.new)) }
    ensures open { OnOk result (is_open_end book.new.end ≡ true) }
    ensures goes { BookGoesOn D.shows book.old book.new }
{
    showing_laws();
    telling_laws();
    limit_laws();
    resting_laws();
    part_laws();
    loggable_change_laws();
    applying_laws::<ScriptHandler>();
    serial_laws::<ScriptHandler>();
    let named = name.copy(alloc)?;
    let trace = deletion_trace(alloc, number, named)?;
    let trace = timed(office.desk(), trace);
    databases.stores_are_sound();
    let stands = enter(book, &trace)?;
    if !stands {
        doubt_tx(alloc, office, number, notes)?;
        return Ok(());
    }
    delete_database(alloc, databases, &name)?;
    finish_tx(alloc, office, number, trace.outcome, None, notes)?;
    Ok(())
}
