// Sealing the commits that wait.
ghost use Rattle.std.specs.Prelude.{◌≡◌, ◌≤◌, None, length};
ghost use Rattle.disk_trait.specs.Disk.{LeavesOnly};
ghost use Rattle.record_bytes.specs.Spelling.{batch_spelling};
ghost use Rattle.tx_book.specs.Books.{IsFoundOr, IsLogKept};
ghost use Rattle.tx_book.specs.Sealing.{SealingIs};
ghost use Rattle.tx_book.specs.Seen.{log_held};

use crate::held::Held;
use crate::place::append;
use gate_log::Disk;

/// What became of a batch.
#[derive(Clone, Copy, PartialEq, Eq)]
pub(crate) enum Sealing {
    Sealed,
    DiskFault,
    NoMemory,
}

/// SealsPayload the commits that wait as one batch.
pub(crate) fn seal<D: Disk>(held: &mut Held<D>) -> Sealing
    requires kept { IsLogKept D.shows (log_held held.old) }
    requires faultless { (log_held held.old).failed ≡ None }
    requires some { 1 ≤ length held.old.waiting }

    ensures kept { IsLogKept D.shows (log_held held.new) }
    ensures answer { SealingIs D.shows held.old.waiting held.old result held.new }
    ensures any_moment { LeavesOnly (D.shows (log_held held.old).disk) (D.shows (log_held held.new).disk)
        (IsFoundOr D.shows (batch_spelling held.old.waiting) (log_held held.old)) }
    ensures count { (D.shows (log_held held.old).disk).faults ≤ (D.shows (log_held held.new).disk).faults }
{
    let Ok(frame) = held.waiting.into_frame() else {
        return Sealing::NoMemory;
    };
    match append(&mut held.place, &frame) {
        Ok(()) => {
            held.waiting.reuse(frame);
            Sealing::Sealed
        }
        Err(_) => {
            held.lost = Some(frame);
            Sealing::DiskFault
        }
    }
}
