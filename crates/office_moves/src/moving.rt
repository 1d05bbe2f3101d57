// A client makes a move.
ghost use Rattle.std.specs.Prelude.{◌≡◌, ◌<◌, ◌+◌, true, Some, None, OnOk, OnErr};
ghost use Rattle.log_history.specs.Kept.{Dropped};
ghost use Rattle.serial_order.specs.FinishEntries.{Scripted};
ghost use Rattle.office_scenes.specs.Measures.{left_to, room_left};
ghost use Rattle.office_moves.specs.Moving.{IsMoveOf};
ghost use Rattle.office_scenes.specs.Running.{begun_run, FinishedWith, HoldsBegun, IsDue, BookGoesOn};
ghost use Rattle.office_scenes.specs.Stopping.{StopsTelling};
ghost use Rattle.office_scenes.specs.Scenes.{done_of_book, is_open_end, scene_of, LeadsTo, StandsOn};

use crate::dropping::drop_tx;
use crate::running::{close_scripted, start_tx};
use crate::serving::serve;
use crate::settling::{settle_deletion, settle_tx};
use client_parts::{BegunBody, BegunTx};
use disk_trait::Disk;
use edge_traits::Gate;
use idb_base::NoMemory;
use index_tables::Tables;
use office_scenes::Office;
use script_runs::Notes;
use session_books::SessionBook;
use session_databases::SessionDatabases;
use session_states::under_way_laws;
use std::alloc::Global;

/// A transaction that was started is run to its end on the databases, entered in the book, and finishes.
fn run_scripted<T: Tables, D: Disk, G: Gate>(
    alloc: Global,
    gate: &G,
    office: &mut Office,
    number: u64,
    begun: BegunTx,
    notes: &mut Notes,
    databases: &mut SessionDatabases<T>,
    book: &mut SessionBook<D, T>,
) -> Result<(), NoMemory>
    requires on { StandsOn (Some (begun_run number (Scripted begun.body)))
        (scene_of office.old notes.old (done_of_book book.old) databases.old) }
    requires holds { HoldsBegun office.old number (Scripted begun.body) }
    requires runs { book.old.end ≡ Dropped }
    ensures leads { OnOk result (LeadsTo (Some (begun_run number (Scripted begun.body))) None
        (scene_of office.old notes.old (done_of_book book.old) databases.old)
        (scene_of office.new notes.new (done_of_book book.new) databases.new)) }
    ensures finishes { OnOk result (FinishedWith (done_of_book book.old) number (done_of_book book.new)) }
    ensures stops { OnErr result (StopsTelling (Some (begun_run number (Scripted begun.body)))
        (scene_of office.old notes.old (done_of_book book.old) databases.old) (done_of_book book.new)) }
    ensures open { OnOk result (is_open_end book.new.end ≡ true) }
    ensures goes { BookGoesOn D.shows book.old book.new }
{
    let end = close_scripted(alloc, gate, office, number, begun, notes, databases)?;
    settle_tx(alloc, office, number, end, notes, databases, book)?;
    Ok(())
}

/// The least transaction that isn't finished is run whole, and entered in the book; one that its body aborted, or any where the host is
/// faulted, finishes without starting.
fn run_tx<T: Tables, D: Disk, G: Gate>(
    alloc: Global,
    gate: &G,
    office: &mut Office,
    number: u64,
    notes: &mut Notes,
    databases: &mut SessionDatabases<T>,
    book: &mut SessionBook<D, T>,
) -> Result<(), NoMemory>
    requires due { IsDue office.old.run office.old.client number }
    requires on { StandsOn None (scene_of office.old notes.old (done_of_book book.old) databases.old) }
    requires open { is_open_end book.old.end ≡ true }
    ensures leads { OnOk result (LeadsTo None None
        (scene_of office.old notes.old (done_of_book book.old) databases.old)
        (scene_of office.new notes.new (done_of_book book.new) databases.new)) }
    ensures finishes { OnOk result (FinishedWith (done_of_book book.old) number (done_of_book book.new)) }
    ensures stops { OnErr result (StopsTelling None
        (scene_of office.old notes.old (done_of_book book.old) databases.old) (done_of_book book.new)) }
    ensures open { OnOk result (is_open_end book.new.end ≡ true) }
    ensures goes { BookGoesOn D.shows book.old book.new }
{
    under_way_laws();
    if office.desk().is_faulted() {
        drop_tx(alloc, office, number, notes, book)?;
        return Ok(());
    }
    match start_tx(office, number) {
        Some(BegunBody::Scripted(begun)) => {
            run_scripted(alloc, gate, office, number, begun, notes, databases, book)?;
            Ok(())
        }
        Some(BegunBody::Deletion(name)) => {
            settle_deletion(alloc, office, number, name, notes, databases, book)?;
            Ok(())
        }
        None => {
            drop_tx(alloc, office, number, notes, book)?;
            Ok(())
        }
    }
}

/// In its office a client runs the transaction of this number whole, which is the least that isn't finished; or where none is named it runs
/// its oldest task or, where it has none, takes its oldest event. The gate is told of each request before it runs. Only want of
/// memory stops it; the book then has no commit more, or that of a transaction that ran whole.
pub fn make_move<T: Tables, D: Disk, G: Gate>(
    alloc: Global,
    gate: &G,
    office: &mut Office,
    number: Option<u64>,
    notes: &mut Notes,
    databases: &mut SessionDatabases<T>,
    book: &mut SessionBook<D, T>,
) -> Result<(), NoMemory>
    requires due { IsMoveOf office.old.run office.old.client number }
    requires on { StandsOn None (scene_of office.old notes.old (done_of_book book.old) databases.old) }
    requires open { is_open_end book.old.end ≡ true }
    ensures leads { OnOk result (LeadsTo None None
        (scene_of office.old notes.old (done_of_book book.old) databases.old)
        (scene_of office.new notes.new (done_of_book book.new) databases.new)) }
    ensures less { OnOk result (left_to office.new.client notes.new + room_left book.new.finished
        < left_to office.old.client notes.old + room_left book.old.finished) }
    ensures stops { OnErr result (StopsTelling None
        (scene_of office.old notes.old (done_of_book book.old) databases.old) (done_of_book book.new)) }
    ensures open { OnOk result (is_open_end book.new.end ≡ true) }
    ensures goes { BookGoesOn D.shows book.old book.new }
{
    match number {
        Some(number) => {
            run_tx(alloc, gate, office, number, notes, databases, book)?;
            Ok(())
        }
        None => {
            serve(alloc, office, notes)?;
            Ok(())
        }
    }
}
