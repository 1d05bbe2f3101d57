// A transaction that ends is entered in the book.
ghost use Rattle.std.specs.Prelude.{◌≡◌, ◌++◌, ◌∷◌, [], ◌<◌, true, false, length, IfOk, OnOk, OnErr};
ghost use Rattle.idb_desk.specs.Durabilities.{durability_drawn};
ghost use Rattle.log_history.specs.Batching.{commit_of};
ghost use Rattle.log_history.specs.Kept.{Dropped};
ghost use Rattle.tx_book.specs.Entries.{CanBeLogged, has_committed};
ghost use Rattle.session_books.specs.States.{commits_apply};
ghost use Rattle.session_books.specs.Entering.{is_commit};
ghost use Rattle.office_scenes.specs.Measures.{beyond_memory};
ghost use Rattle.office_scenes.specs.Running.{BookGoesOn};
ghost use Rattle.office_scenes.specs.Scenes.{done_of_book, is_open_end, with_number, done_with_trace, doubted_with_trace};

use disk_trait::Disk;
use idb_base::NoMemory;
use idb_calls::TxTrace;
use idb_desk::Desk;
use index_tables::Tables;
use session_books::{EnterError, SessionBook};

/// The trace with the durability with which the desk drew its transaction.
pub(crate) fn timed(desk: &Desk, trace: TxTrace) -> TxTrace
    ensures { result ≡ record trace { durability = durability_drawn desk.now.order trace.number } }
{
    TxTrace {
        number: trace.number,
        mode: trace.mode,
        durability: desk.durability(trace.number),
        deltas: trace.deltas,
        lines: trace.lines,
        outcome: trace.outcome,
    }
}

/// Enters a transaction at its end; whether it may finish so. Else the disk failed as its commit was written, which is in doubt.
pub(crate) fn enter<D: Disk, T: Tables>(
    book: &mut SessionBook<D, T>,
    trace: &TxTrace,
) -> Result<bool, NoMemory>
    requires runs { book.old.end ≡ Dropped }
    requires loggable { is_commit trace.now ≡ true → CanBeLogged trace.now }
    requires applies { is_commit trace.now ≡ true
        → commits_apply book.old.opening (book.old.commits ++ commit_of trace.now ∷ []) ≡ true }
    ensures stands { IfOk result (λ stands. stands ≡ true
        → done_of_book book.new ≡ done_with_trace trace.now (done_of_book book.old)) }
    ensures in_doubt { IfOk result (λ stands. stands ≡ false → is_commit trace.now ≡ true) }
    ensures doubted { IfOk result (λ stands. stands ≡ false
        → done_of_book book.new ≡ doubted_with_trace trace.now (done_of_book book.old)) }
    ensures few { OnOk result (length book.new.finished < beyond_memory) }
    ensures unchanged { OnErr result (book.new ≡ book.old) }
    ensures open { is_open_end book.new.end ≡ true }
    ensures goes { BookGoesOn D.shows book.old book.new }
{
    match book.enter(trace) {
        Ok(()) => {
            let _ = book.finished_count();
            Ok(true)
        }
        Err(EnterError::DiskFault) => {
            let _ = book.finished_count();
            Ok(false)
        }
        Err(EnterError::NoMemory) => Err(NoMemory),
    }
}

/// Notes a transaction that aborted without starting.
pub(crate) fn note<D: Disk, T: Tables>(
    book: &mut SessionBook<D, T>,
    trace: &TxTrace,
) -> Result<(), NoMemory>
    requires { has_committed trace.now.outcome ≡ false }
    ensures noted { OnOk result
        (done_of_book book.new ≡ with_number trace.now.number (done_of_book book.old)) }
    ensures few { OnOk result (length book.new.finished < beyond_memory) }
    ensures unchanged { OnErr result (book.new ≡ book.old) }
    ensures open { is_open_end book.old.end ≡ true → is_open_end book.new.end ≡ true }
    ensures goes { BookGoesOn D.shows book.old book.new }
{
    book.note(trace)?;
    let _ = book.finished_count();
    Ok(())
}
