// The place where a book has its log.
ghost use Rattle.std.specs.Prelude.{◌≡◌, ◌+◌, ◌-◌, ◌^◌, ◌<◌, ◌≤◌, None, Some, length, OnOk, OnErr};
ghost use Rattle.edge_traits.specs.Faults.{Rose};
ghost use Rattle.disk_trait.specs.Disk.{EachImage, LeavesOnly};
ghost use Rattle.gate_log.specs.Content.{batches_told, with_batch, IsFoundAs, IsBeforeOrAfter};
ghost use Rattle.tx_book.specs.Seen.{disk_in, live_there, failed_in};

use gate_areas::{Failed, LiveArea};
use gate_log::{AppendError, Disk, Frame, GateLog};

/// A log, or a disk without one.
#[derive(Drop)]
pub(crate) enum Place<D: Disk> {
    Open(GateLog<D>),
    Fallen(Fallen<D>),
}

/// A disk whose log is gone after a fault.
#[derive(Drop)]
pub(crate) struct Fallen<D: Disk> {
    pub disk: D,
    /// The area that was live.
    pub live: LiveArea,
    /// The count of faults that was seen.
    pub seen: u64,
}

/// The count of faults that was seen when an append failed; `None` until then.
pub(crate) fn failed<D: Disk>(place: &Place<D>) -> Option<u64>
    ensures { result ≡ failed_in place.now }
{
    match place {
        Place::Open(log) => log.failed(),
        Place::Fallen(fallen) => Some(fallen.seen),
    }
}

/// Appends a batch, as `GateLog::append` does.
pub(crate) fn append<D: Disk>(place: &mut Place<D>, frame: &Frame) -> Result<(), Failed>
    requires faultless { failed_in place.old ≡ None }

    ensures appended { OnOk result (batches_told (D.shows (disk_in place.new)) (live_there place.new)
        ≡ with_batch ((live_there place.old).gate, frame.now) (batches_told (D.shows (disk_in place.old)) (live_there place.old))) }
    ensures sealed { OnOk result (EachImage (D.shows (disk_in place.new))
        (IsFoundAs (live_there place.new) (batches_told (D.shows (disk_in place.new)) (live_there place.new)))) }
    ensures next { OnOk result (live_there place.new
        ≡ record (live_there place.old) { gate = (live_there place.old).gate + 9 + length frame.now }) }
    ensures limit { OnOk result ((live_there place.new).gate < 2 ^ 63 - 1) }
    ensures ok { OnOk result (failed_in place.new ≡ None) }

    ensures same { OnErr result (batches_told (D.shows (disk_in place.new)) (live_there place.new)
        ≡ batches_told (D.shows (disk_in place.old)) (live_there place.old)) }
    ensures same_live { OnErr result (live_there place.new ≡ live_there place.old) }
    ensures in_doubt { OnErr result (EachImage (D.shows (disk_in place.new))
        (IsBeforeOrAfter (live_there place.new) (batches_told (D.shows (disk_in place.new)) (live_there place.new))
        ((live_there place.new).gate, frame.now))) }
    ensures rose { OnErr result
        (Rose (D.shows (disk_in place.old)).faults (D.shows (disk_in place.new)).faults) }
    ensures failed { OnErr result (failed_in place.new ≡ Some (D.shows (disk_in place.new)).faults) }

    ensures any_moment { LeavesOnly (D.shows (disk_in place.old)) (D.shows (disk_in place.new))
        (IsBeforeOrAfter (live_there place.old) (batches_told (D.shows (disk_in place.old)) (live_there place.old))
        ((live_there place.old).gate, frame.now)) }
    ensures count { (D.shows (disk_in place.old)).faults ≤ (D.shows (disk_in place.new)).faults }
{
    match place {
        Place::Open(log) => match log.append(frame) {
            Ok(()) => {
                let _ = log.failed();
                Ok(())
            }
            Err(AppendError::DiskFault) => Err(Failed),
            Err(AppendError::Faulted { .. }) => unreachable!(),
        },
        Place::Fallen(_) => unreachable!(),
    }
}

/// The disk.
pub(crate) fn into_disk<D: Disk>(place: Place<D>) -> D
    ensures { result ≡ disk_in place }
{
    match place {
        Place::Open(log) => log.into_disk(),
        Place::Fallen(fallen) => fallen.disk,
    }
}
