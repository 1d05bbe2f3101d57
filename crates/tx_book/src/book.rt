// The book.
ghost use Rattle.std.specs.Prelude.{◌≡◌, ◌+◌, ◌≤◌, ◌++◌, ◌∷◌, [], true, vec_len, vec_capacity};

use crate::answers::{Finish, Flush};
use crate::committing::{Committing, commit};
use crate::held::Held;
use crate::place::{Place, failed, into_disk};
use crate::sealing::{Sealing, seal};
use crate::waiting::Waiting;
use clone_values::Numbers;
use gate_log::{Disk, GateLog};
use idb_calls::{Outcome, TxTrace};
use idb_keys::Mode;
use std::alloc::Global;
use std::marker::Model;

/// The transactions of a session as they finish, over a log that takes the commits among them in batches.
///
/// A commit is strict or relaxed. A strict one is on the disk as it is answered, with those that waited, after four device calls. A
/// relaxed one waits, in memory, until its batch ends: with a strict one, with the 64th, or with the one by which the payload comes to
/// 262,144 bytes. After a fault of the disk no commit is taken any more.
#[derive(Drop)]
pub struct Book<D: Disk> {
    held: Held<D>,
    finished: Vec<u64>,
    committed: Vec<u64>,
}

impl<D: Disk> Model for Book<D> {
    ghost use Rattle.std.specs.Coded.{codes};
    ghost use Rattle.clone_values.specs.Tree.{tree_code};
    ghost use Rattle.clone_values.specs.KeyTree.{key_code};
    ghost use Rattle.tx_book.specs.Books.{BookState, IsBook};

    ghost Value = { BookState D };

    ghost coded = { Prim.hlevel (codes, key_code, tree_code) };

    ghost use Rattle.tx_book.specs.Seen.{log_held};

    ghost view = { λ a. record {
      log = log_held a.held;
      finished = a.finished.items;
      committed = a.committed.items;
    } };

    ghost invariant = { λ a. IsBook D.shows (record {
      log = log_held a.held;
      finished = a.finished.items;
      committed = a.committed.items;
    }) };
}

impl<D: Disk> Book<D> {
    ghost use Rattle.std.specs.Prelude.{◌≡◌, ◌-◌, ◌^◌, ◌<◌, ◌≤◌, [], length, None};
    ghost use Rattle.disk_trait.specs.Disk.{EachImage, LeavesOnly};
    ghost use Rattle.gate_log.specs.Log.{disk_of, live_of, failed_at};
    ghost use Rattle.log_history.specs.Batching.{IsBelowLimits, batch_payload};
    ghost use Rattle.tx_book.specs.Books.{fresh, IsFoundOr, IsFoundSo};
    ghost use Rattle.tx_book.specs.Entries.{IsCommit, CanBeLogged, batch_with};
    ghost use Rattle.tx_book.specs.Answers.{FinishIs, FlushIs};

    /// A book over a log that was just loaded or made; it takes no memory.
    pub fn new(alloc: Global, log: GateLog<D>) -> Book<D>
        requires faultless { failed_at log ≡ None }
        ensures log { result.log ≡ fresh (disk_of log) (live_of log) }
        ensures finished { result.finished ≡ [] }
        ensures committed { result.committed ≡ [] }
    {
        let _ = log.failed();
        Book {
            held: Held {
                place: Place::Open(log),
                waiting: Waiting::new(alloc),
                lost: None,
            },
            finished: Vec::new(alloc),
            committed: Vec::new(alloc),
        }
    }

    /// Enters a transaction that finished: one that committed, with its changes, or one that aborted.
    pub fn finish(&mut self, trace: &TxTrace) -> Finish
        requires loggable { IsCommit trace.now → self.old.log.failed ≡ None → CanBeLogged trace.now }

        ensures answer { FinishIs D.shows trace.now self.old result self.new }

        // A stop at any moment leaves the batches from before, or these and the new one.
        ensures any_moment { self.old.log.failed ≡ None
            → LeavesOnly (D.shows self.old.log.disk) (D.shows self.new.log.disk)
            (IsFoundOr D.shows (batch_payload (batch_with trace.now self.old.log.waiting)) self.old.log) }
        ensures count { (D.shows self.old.log.disk).faults ≤ (D.shows self.new.log.disk).faults }
    {
        if !take_room(&mut self.finished, &mut self.committed) {
            return Finish::NoMemory;
        }
        if let Outcome::Aborted { .. } = trace.outcome {
            note(&mut self.finished, trace.number);
            return Finish::Noted;
        }
        if let Some(seen) = failed(&self.held.place) {
            note(&mut self.finished, trace.number);
            return Finish::Faulted { seen };
        }
        if let Mode::ReadOnly = trace.mode {
            note(&mut self.finished, trace.number);
            return Finish::Noted;
        }
        match commit(&mut self.held, trace) {
            Committing::Sealed => {
                note(&mut self.finished, trace.number);
                note(&mut self.committed, trace.number);
                Finish::Sealed
            }
            Committing::Waiting => {
                note(&mut self.finished, trace.number);
                note(&mut self.committed, trace.number);
                Finish::Waiting
            }
            Committing::DiskFault => {
                note(&mut self.finished, trace.number);
                Finish::DiskFault
            }
            Committing::NoMemory => Finish::NoMemory,
        }
    }

    /// Ends the batch of the commits that wait, if any do.
    pub fn flush(&mut self) -> Flush
        ensures answer { FlushIs D.shows self.old result self.new }

        // A stop at any moment leaves the batches from before, or these and the new one.
        ensures any_moment { self.old.log.failed ≡ None
            → LeavesOnly (D.shows self.old.log.disk) (D.shows self.new.log.disk)
            (IsFoundOr D.shows (batch_payload self.old.log.waiting) self.old.log) }
        ensures count { (D.shows self.old.log.disk).faults ≤ (D.shows self.new.log.disk).faults }
    {
        if let Some(seen) = failed(&self.held.place) {
            return Flush::Faulted { seen };
        }
        if self.held.waiting.len() == 0 {
            return Flush::Nothing;
        }
        match seal(&mut self.held) {
            Sealing::Sealed => Flush::Sealed,
            Sealing::DiskFault => Flush::DiskFault,
            Sealing::NoMemory => Flush::NoMemory,
        }
    }

    /// The count of faults that was seen when an append failed; `None` until then. Each batch takes nine bytes at least below the last
    /// gate, whose place has a limit: so a `u64` that counts batches never wraps.
    pub fn failed(&self) -> Option<u64>
        ensures value { result ≡ self.now.log.failed }

        // A stop now leaves the batches or, after a fault, these or these and the one that failed.
        ensures images { EachImage (D.shows self.now.log.disk) (IsFoundSo D.shows self.now.log) }
        ensures faultless { self.now.log.failed ≡ None → self.now.log.lost ≡ None }
        ensures limit { self.now.log.live.gate < 2 ^ 63 - 1 }
        ensures below { IsBelowLimits self.now.log.waiting }
    {
        failed(&self.held.place)
    }

    /// How many transactions have finished.
    pub fn finished_count(&self) -> usize
        ensures { result ≡ length self.now.finished }
    {
        self.finished.len()
    }

    /// The disk, the numbers of the transactions that finished, and those of the commits among them, both in the order in which they
    /// were entered. The commits that wait are lost.
    pub fn into_parts(self) -> (D, Numbers, Numbers)
        ensures disk { result.0 ≡ self.log.disk }
        ensures finished { result.1 ≡ self.finished }
        ensures committed { result.2 ≡ self.committed }
        ensures images { EachImage (D.shows result.0) (IsFoundSo D.shows self.log) }
    {
        let Book {
            held,
            finished,
            committed,
        } = self;
        let Held { place, .. } = held;
        (
            into_disk(place),
            Numbers::from_vec(finished),
            Numbers::from_vec(committed),
        )
    }
}

// Whether memory suffices for one number more in each list; it is taken then.
fn take_room(finished: &mut Vec<u64>, committed: &mut Vec<u64>) -> bool
    ensures finished { result ≡ true → vec_len finished.new + 1 ≤ vec_capacity finished.new }
    ensures committed { result ≡ true → vec_len committed.new + 1 ≤ vec_capacity committed.new }
    ensures same_finished { finished.new.items ≡ finished.old.items }
    ensures same_committed { committed.new.items ≡ committed.old.items }
{
    finished.reserve(1).is_ok() && committed.reserve(1).is_ok()
}

// Enters a number in a list that has room for it.
fn note(list: &mut Vec<u64>, number: u64)
    requires { vec_len list.old + 1 ≤ vec_capacity list.old }
    ensures { list.new.items ≡ list.old.items ++ number ∷ [] }
{
    match list.push(number) {
        Ok(()) => {}
        Err(_) => unreachable!(),
    }
}
