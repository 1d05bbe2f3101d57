// A transaction is entered in the book and, where it is a commit, among the notes.
ghost use Rattle.std.specs.Prelude.{◌≡◌, ◌+◌, ◌≤◌, ◌∷◌, [], ◌++◌, None, vec_len, vec_capacity};
ghost use Rattle.disk_trait.specs.Disk.{LeavesOnly};
ghost use Rattle.log_history.specs.Batching.{commit_of, batch_payload};
ghost use Rattle.tx_book.specs.Answers.{FinishIs};
ghost use Rattle.tx_book.specs.Books.{IsFoundOr};
ghost use Rattle.tx_book.specs.Entries.{IsCommit, CanBeLogged, batch_with};
ghost use Rattle.session_books.specs.Seen.{commits_seen, noted_commits};

use crate::notes::CommitNote;
use gate_log::Disk;
use idb_calls::TxTrace;
use std::snapshot::Snapshot;
use tx_book::{Book, Finish};

/// The room for a note comes first, so that want of memory leaves both as they were.
pub(crate) fn enter_in<D: Disk>(
    book: &mut Book<D>,
    commits: &mut Vec<CommitNote>,
    trace: &TxTrace,
) -> Finish
    requires loggable { IsCommit trace.now → CanBeLogged trace.now }

    ensures answer { FinishIs D.shows trace.now book.old result book.new }
    ensures noted { commits_seen commits.new.items
        ≡ noted_commits trace.now result (commits_seen commits.old.items) }
    ensures any_moment { book.old.log.failed ≡ None
        → LeavesOnly (D.shows book.old.log.disk) (D.shows book.new.log.disk)
        (IsFoundOr D.shows (batch_payload (batch_with trace.now book.old.log.waiting)) book.old.log) }
    ensures count { (D.shows book.old.log.disk).faults ≤ (D.shows book.new.log.disk).faults }
{
    let _ = book.failed();
    if commits.reserve(1).is_err() {
        return Finish::NoMemory;
    }
    let answer = book.finish(trace);
    match answer {
        Finish::Sealed | Finish::Waiting => note_commit(commits, trace),
        _ => {}
    }
    answer
}

// Notes a commit in a list that has room for it.
fn note_commit(commits: &mut Vec<CommitNote>, trace: &TxTrace)
    requires { vec_len commits.old + 1 ≤ vec_capacity commits.old }
    ensures { commits_seen commits.new.items ≡ commits_seen commits.old.items ++ commit_of trace.now ∷ [] }
{
    let trace = Snapshot::of(trace);
    match commits.push(CommitNote { trace }) {
        Ok(()) => {}
        Err(_) => unreachable!(),
    }
}
