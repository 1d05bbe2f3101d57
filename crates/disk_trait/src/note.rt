// The shape of all that is crash-safe here, at its least: write behind a closed gate, sync, open the gate by one byte,
// sync. It is proved from the trait alone, so it shows that the trait says enough.
ghost use Rattle.std.specs.Prelude.{◌≡◌, Some, None, OnOk};
ghost use Rattle.edge_traits.specs.Faults.{HasFaultCause};
ghost use Rattle.disk_trait.specs.Disk.{WhereTold, EachImage, IsSettled, LeavesOnly};
ghost use Rattle.disk_trait.specs.Note.{note_of, IsNoneOr};

use crate::{Area, Disk, write_synced};
use edge_traits::Failed;

const OPEN: u8 = 0xa5;

/// Leaves a note in an area that is one closed gate. Whenever the disk stops, the note is there whole or not at all.
pub fn leave_note<D: Disk>(disk: &mut D, area: Area, note: &[u8]) -> Result<(), Failed>
    requires settled { IsSettled (D.shows disk.old) }
    requires one_byte { (D.shows disk.old).lengths area ≡ 1 }
    requires closed { WhereTold (D.shows disk.old) (λ areas. note_of area areas ≡ None) }

    ensures any_moment { LeavesOnly (D.shows disk.old) (D.shows disk.new) (IsNoneOr area note.now) }
    ensures left { OnOk result (EachImage (D.shows disk.new)
        (λ image. note_of area image ≡ Some note.now)) }
    ensures cause { HasFaultCause (D.shows disk.old).faults (D.shows disk.new).faults result }
{
    write_synced(disk, area, 1, note)?;
    write_synced(disk, area, 0, &[OPEN])
}
