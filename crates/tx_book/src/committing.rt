// A commit: it waits, or ends its batch.
ghost use Rattle.std.specs.Prelude.{◌≡◌, ◌≤◌, None, length};
ghost use Rattle.disk_trait.specs.Disk.{LeavesOnly};
ghost use Rattle.log_history.specs.Batching.{IsBelowLimits, batch_payload};
ghost use Rattle.tx_book.specs.Books.{IsFoundOr, IsLogKept};
ghost use Rattle.tx_book.specs.Committing.{CommittingIs, ends_with};
ghost use Rattle.tx_book.specs.Entries.{CanBeLogged, batch_with};
ghost use Rattle.tx_book.specs.Seen.{log_held};

use crate::held::Held;
use crate::sealing::{Sealing, seal};
use crate::waiting::Waiting;
use gate_log::Disk;
use idb_calls::TxTrace;
use idb_keys::Durability;
use log_history::{FULL_BATCH_BYTES, GREATEST_BATCH_COUNT};

/// What became of a commit.
#[derive(Clone, Copy, PartialEq, Eq)]
pub(crate) enum Committing {
    Sealed,
    Waiting,
    DiskFault,
    NoMemory,
}

/// Lets a commit wait, or seals it with those that wait.
pub(crate) fn commit<D: Disk>(held: &mut Held<D>, trace: &TxTrace) -> Committing
    requires kept { IsLogKept D.shows (log_held held.old) }
    requires below { IsBelowLimits (log_held held.old).waiting }
    requires faultless { (log_held held.old).failed ≡ None }
    requires loggable { CanBeLogged trace.now }

    ensures kept { IsLogKept D.shows (log_held held.new) }
    ensures below { IsBelowLimits (log_held held.new).waiting }
    ensures answer { CommittingIs D.shows trace.now (log_held held.old) result (log_held held.new) }
    ensures any_moment { LeavesOnly (D.shows (log_held held.old).disk) (D.shows (log_held held.new).disk)
        (IsFoundOr D.shows (batch_payload (batch_with trace.now (log_held held.old).waiting)) (log_held held.old)) }
    ensures count { (D.shows (log_held held.old).disk).faults ≤ (D.shows (log_held held.new).disk).faults }
{
    let before = held.waiting.payload_len();
    if held.waiting.push(trace).is_err() {
        return Committing::NoMemory;
    }
    if !ends(&held.waiting, trace) {
        return Committing::Waiting;
    }
    match seal(held) {
        Sealing::Sealed => Committing::Sealed,
        Sealing::DiskFault => Committing::DiskFault,
        Sealing::NoMemory => {
            held.waiting.take_back(before);
            Committing::NoMemory
        }
    }
}

// Whether the batch ends with this transaction, whose record stands last.
fn ends(waiting: &Waiting, trace: &TxTrace) -> bool
    ensures { result ≡ ends_with trace.now waiting.now }
{
    match trace.durability {
        Durability::Strict => true,
        Durability::Relaxed => {
            waiting.len() >= GREATEST_BATCH_COUNT || waiting.payload_len() >= FULL_BATCH_BYTES
        }
    }
}
