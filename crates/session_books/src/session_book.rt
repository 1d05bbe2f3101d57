// The book of a session.
use crate::entering::enter_in;
use crate::error::EnterError;
use crate::notes::{CommitNote, Ended, is_open};
use clone_values::Numbers;
use gate_log::Disk;
use idb_base::NoMemory;
use idb_calls::TxTrace;
use idb_databases::Databases;
use idb_recovery::Opened;
use index_tables::Tables;
use log_history::kept_laws;
use std::alloc::Global;
use std::marker::Model;
use std::snapshot::Snapshot;
use tx_book::{Book, Finish, Flush, book_laws};

/// A book over a log that was opened, for one session. It runs until it is flushed, or the disk fails as a batch is written. Contracts see
/// the items on which it was opened, the commits since, and how it ended.
#[derive(Drop)]
pub struct SessionBook<D: Disk, T: Tables> {
    book: Book<D>,
    opening: Snapshot<Databases<T>>,
    commits: Vec<CommitNote>,
    ended: Ended,
}

impl<D: Disk, T: Tables> Model for SessionBook<D, T> {
    ghost use Rattle.std.specs.Coded.{codes};
    ghost use Rattle.clone_values.specs.Tree.{tree_code};
    ghost use Rattle.clone_values.specs.KeyTree.{key_code};
    ghost use Rattle.session_books.specs.Codes.{items_code};
    ghost use Rattle.session_books.specs.States.{SessionBookState, IsSessionBook};

    ghost Value = { SessionBookState D };

    ghost coded = { Prim.hlevel (codes, items_code, key_code, tree_code) };

    ghost use Rattle.session_books.specs.Seen.{commits_seen, end_seen};

    ghost view = { λ a. record {
      opening = a.opening.value;
      commits = commits_seen a.commits.items;
      end = end_seen a.ended;
      finished = a.book.finished;
      log = a.book.log;
    } };

    ghost invariant = { λ a. IsSessionBook D.shows (record {
      opening = a.opening.value;
      commits = commits_seen a.commits.items;
      end = end_seen a.ended;
      finished = a.book.finished;
      log = a.book.log;
    }) a.book.committed };
}

impl<D: Disk, T: Tables> SessionBook<D, T> {
    ghost use Rattle.std.specs.Prelude.{◌≡◌, ◌≤◌, ◌++◌, ◌∷◌, [], length, true, false, OnOk, OnErr, IsErrOf};
    ghost use Rattle.disk_trait.specs.Disk.{EachImage, LeavesOnly};
    ghost use Rattle.gate_log.specs.Log.{disk_of, live_of, failed_at};
    ghost use Rattle.log_history.specs.Batching.{commit_of};
    ghost use Rattle.log_history.specs.Kept.{Dropped, FailedFlush, with_doubt};
    ghost use Rattle.tx_book.specs.Books.{fresh};
    ghost use Rattle.tx_book.specs.Entries.{CanBeLogged, has_committed};
    ghost use Rattle.tx_book.specs.Follows.{IsFoundKept};
    ghost use Rattle.session_books.specs.States.{opened_on, takes_more, numbers_of, commits_apply, HadCause, HoldsItems};
    ghost use Rattle.session_books.specs.Entering.{is_commit, end_within, with_entered, with_noted, flushed, IsButLog, FailsAtCommit, FailsAtFlush};

    /// A book over a log that was just opened, and its databases. It takes no memory.
    pub fn new(alloc: Global, opened: Opened<D, T>) -> (SessionBook<D, T>, Databases<T>)
        requires gives { HoldsItems D.shows opened.log opened.items }
        requires faultless { failed_at opened.log ≡ None }
        ensures book { result.0
            ≡ opened_on opened.items (fresh (disk_of opened.log) (live_of opened.log)) }
        ensures items { result.1 ≡ opened.items }
    {
        let Opened { log, items } = opened;
        let opening = Snapshot::of(&items);
        (
            SessionBook {
                book: Book::new(alloc, log),
                opening,
                commits: Vec::new(alloc),
                ended: Ended::Running,
            },
            items,
        )
    }

    /// Enters a transaction that finished. A commit is found on reopening if it is strict, and else once its batch has ended.
    pub fn enter(&mut self, trace: &TxTrace) -> Result<(), EnterError>
        requires runs { self.old.end ≡ Dropped }
        requires loggable { is_commit trace.now ≡ true → CanBeLogged trace.now }
        requires applies { is_commit trace.now ≡ true
            → commits_apply self.old.opening (self.old.commits ++ commit_of trace.now ∷ []) ≡ true }

        ensures entered { OnOk result (IsButLog (with_entered trace.now self.old) self.new) }
        ensures disk_fault { IsErrOf result EnterError.DiskFault
            → FailsAtCommit D.shows trace.now self.old self.new }
        ensures unchanged { IsErrOf result EnterError.NoMemory → self.new ≡ self.old }
        ensures untouched { is_commit trace.now ≡ false → self.new.log ≡ self.old.log }

        // A stop at any moment is found as if this call met a fault.
        ensures any_moment { LeavesOnly (D.shows self.old.log.disk) (D.shows self.new.log.disk)
            (IsFoundKept self.old.opening self.old.commits (end_within trace.now)) }
        ensures count { (D.shows self.old.log.disk).faults ≤ (D.shows self.new.log.disk).faults }
    {
        book_laws::<D>();
        kept_laws();
        let _ = self.book.failed();
        match enter_in(&mut self.book, &mut self.commits, trace) {
            Finish::Sealed | Finish::Waiting | Finish::Noted => Ok(()),
            Finish::DiskFault => {
                let trace = Snapshot::of(trace);
                self.ended = Ended::AtCommit(CommitNote { trace });
                Err(EnterError::DiskFault)
            }
            Finish::Faulted { .. } => unreachable!(),
            Finish::NoMemory => Err(EnterError::NoMemory),
        }
    }

    /// Notes that a transaction finished which aborted, whether or not the book takes more.
    pub fn note(&mut self, trace: &TxTrace) -> Result<(), NoMemory>
        requires { has_committed trace.now.outcome ≡ false }
        ensures noted { OnOk result (self.new ≡ with_noted trace.now self.old) }
        ensures unchanged { OnErr result (self.new ≡ self.old) }
    {
        match self.book.finish(trace) {
            Finish::Noted => Ok(()),
            Finish::NoMemory => Err(NoMemory),
            Finish::Sealed | Finish::Waiting | Finish::DiskFault | Finish::Faulted { .. } => {
                unreachable!()
            }
        }
    }

    /// Ends the batch of the commits that wait, and the session with it.
    pub fn flush(&mut self) -> Result<(), EnterError>
        requires runs { self.old.end ≡ Dropped }

        ensures flushed { OnOk result (IsButLog (flushed self.old) self.new) }
        ensures disk_fault { IsErrOf result EnterError.DiskFault → FailsAtFlush D.shows self.old self.new }
        ensures unchanged { IsErrOf result EnterError.NoMemory → self.new ≡ self.old }

        // A stop at any moment is found as if this call met a fault.
        ensures any_moment { LeavesOnly (D.shows self.old.log.disk) (D.shows self.new.log.disk)
            (IsFoundKept self.old.opening self.old.commits FailedFlush) }
        ensures count { (D.shows self.old.log.disk).faults ≤ (D.shows self.new.log.disk).faults }
    {
        book_laws::<D>();
        let _ = self.book.failed();
        match self.book.flush() {
            Flush::Sealed | Flush::Nothing => {
                self.ended = Ended::Flushed;
                Ok(())
            }
            Flush::DiskFault => {
                self.ended = Ended::AtFlush;
                Err(EnterError::DiskFault)
            }
            Flush::Faulted { .. } => unreachable!(),
            Flush::NoMemory => Err(EnterError::NoMemory),
        }
    }

    /// Whether it still runs: it was not flushed, and no batch met a fault. With it comes what always holds.
    pub fn runs(&self) -> bool
        ensures value { result ≡ takes_more self.now.end }
        ensures images { EachImage (D.shows self.now.log.disk)
            (IsFoundKept self.now.opening self.now.commits self.now.end) }
        ensures applies { commits_apply self.now.opening (with_doubt self.now.commits self.now.end) ≡ true }
    {
        book_laws::<D>();
        let _ = self.book.failed();
        is_open(&self.ended)
    }

    /// How many transactions have finished.
    pub fn finished_count(&self) -> usize
        ensures { result ≡ length self.now.finished }
    {
        self.book.finished_count()
    }

    /// The disk, the numbers of the transactions that finished, and those of the commits among them, both in the order in which they
    /// were entered. The commits that wait are lost. A fault by which it ended came as a batch was written.
    pub fn into_parts(self) -> (D, Numbers, Numbers)
        ensures disk { result.0 ≡ self.log.disk }
        ensures finished { result.1 ≡ self.finished }
        ensures committed { result.2 ≡ numbers_of self.commits }
        ensures cause { HadCause self.commits self.end }
        ensures images { EachImage (D.shows result.0) (IsFoundKept self.opening self.commits self.end) }
    {
        book_laws::<D>();
        let SessionBook { book, .. } = self;
        book.into_parts()
    }
}
