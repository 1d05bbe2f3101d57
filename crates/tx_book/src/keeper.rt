// A layer above a book, at its least: it enters transactions as long as the disk bears it, and opens the log again afterwards. It is
// proved from the public clauses of the book, its laws and those of the log alone, so it shows that they say enough: whatever
// is found when the log is opened again is what the commits gave that may be kept.
ghost use Rattle.std.specs.Prelude.{◌≡◌, List, Some, IfOk, All};
ghost use Rattle.item_changes.specs.Items.{Items};
ghost use Rattle.log_history.specs.Replayed.{after_records};
ghost use Rattle.log_history.specs.Batching.{Commit, records_of_commits};
ghost use Rattle.log_history.specs.Kept.{End, Dropped, with_doubt};
ghost use Rattle.tx_book.specs.Entries.{CanBeLogged};
ghost use Rattle.tx_book.specs.Follows.{FollowsCommits};
ghost use Rattle.tx_book.specs.Keeper.{KeepsEntering, GivesKept};

use crate::{Book, Disk, Finish, GateLog, TxTrace, book_laws};
use gate_log::LogError;
use std::alloc::Global;

// Whether the session goes on.
pub fn enter<D: Disk>(book: &mut Book<D>, trace: &TxTrace) -> bool
    requires { CanBeLogged trace.now }
    ensures { (opening : Items) (commits : List Commit)
        → FollowsCommits D.shows opening commits Dropped book.old.log
        → KeepsEntering D.shows opening commits result book.new.log }
{
    book_laws::<D>();
    match book.finish(trace) {
        Finish::Sealed => true,
        Finish::Waiting => true,
        Finish::Noted => true,
        Finish::DiskFault => false,
        Finish::Faulted { .. } => false,
        Finish::NoMemory => false,
    }
}

pub fn enter_all<D: Disk>(book: &mut Book<D>, traces: &[TxTrace]) -> bool
    requires { All CanBeLogged traces.now }
    ensures { (opening : Items) (commits : List Commit)
        → FollowsCommits D.shows opening commits Dropped book.old.log
        → KeepsEntering D.shows opening commits result book.new.log }
{
    for trace in traces {
        if !enter(book, trace) {
            return false;
        }
    }
    true
}

// The book over the log that its disk is found to hold.
pub fn reopen<D: Disk>(alloc: Global, book: Book<D>) -> Result<Book<D>, (LogError, D)>
    ensures { IfOk result (λ new. (opening now : Items) (commits : List Commit) (end : End)
        → FollowsCommits D.shows opening commits end book.log
        → after_records opening (records_of_commits (with_doubt commits end)) ≡ Some now
        → GivesKept D.shows opening commits end new.log) }
{
    book_laws::<D>();
    let parts = book.into_parts();
    let (disk, _finished, _committed) = parts;
    match GateLog::load(alloc, disk) {
        Ok(opened) => {
            let (log, _batches) = opened;
            Ok(Book::new(alloc, log))
        }
        Err(error) => Err(error),
    }
}
