// A layer above a session's book, at its least: it enters transactions as long as the disk bears it, flushes the book and gives the disk
// back. It is proved from the public clauses alone, so it shows that they say enough: whatever happened, each image is found as the
// opening with so many of the commits as may be kept.
ghost use Rattle.std.specs.Prelude.{◌≡◌, true, All};
ghost use Rattle.disk_trait.specs.Disk.{EachImage};
ghost use Rattle.log_history.specs.Kept.{Dropped};
ghost use Rattle.tx_book.specs.Entries.{CanBeLogged};
ghost use Rattle.session_books.specs.States.{commits_apply};
ghost use Rattle.session_books.specs.Keeping.{commits_after, HasEntered, IsKeptOf};

use crate::SessionBook;
use clone_values::Numbers;
use gate_log::Disk;
use idb_calls::TxTrace;
use index_tables::Tables;

fn enter_all<D: Disk, T: Tables>(book: &mut SessionBook<D, T>, traces: &[TxTrace])
    requires runs { book.old.end ≡ Dropped }
    requires loggable { All CanBeLogged traces.now }
    requires applies { commits_apply book.old.opening (commits_after book.old.commits traces.now) ≡ true }
    ensures { HasEntered traces.now book.old book.new }
{
    for trace in traces {
        if book.enter(trace).is_err() {
            return;
        }
    }
}

fn flush_if<D: Disk, T: Tables>(book: &mut SessionBook<D, T>, flushes: bool)
    ensures opening { book.new.opening ≡ book.old.opening }
    ensures commits { book.new.commits ≡ book.old.commits }
{
    if flushes && book.runs() {
        let _ = book.flush();
    }
}

// The disk, and the numbers of what finished and of the commits.
pub fn keep<D: Disk, T: Tables>(
    book: SessionBook<D, T>,
    traces: &[TxTrace],
    flushes: bool,
) -> (D, Numbers, Numbers)
    requires runs { book.end ≡ Dropped }
    requires loggable { All CanBeLogged traces.now }
    requires applies { commits_apply book.opening (commits_after book.commits traces.now) ≡ true }
    ensures { EachImage (D.shows result.0) (IsKeptOf book.opening book.commits traces.now) }
{
    let mut book = book;
    enter_all(&mut book, traces);
    flush_if(&mut book, flushes);
    book.into_parts()
}
