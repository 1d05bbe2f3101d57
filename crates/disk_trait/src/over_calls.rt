// What holds over all calls of a disk in memory.
ghost use Rattle.disk_trait.specs.Laws.{SameSinceSync, PinnedBySync, KeptIsRead, DroppedIsSynced};

/// Disks in memory whose reads were the same at a sync of both areas, and that made the same changes since, have the
/// same images. It does nothing when it runs.
pub fn same_calls_leave_the_same()
    ensures { SameSinceSync }
{}

/// A sync pins its area until it is changed again. It does nothing when it runs.
pub fn sync_pins()
    ensures { PinnedBySync }
{}

/// What the images of a plan are: `Kept` is what reads give, `Dropped` that of the last sync or restart. It does nothing
/// when it runs.
pub fn planned_images()
    ensures kept { KeptIsRead }
    ensures dropped { DroppedIsSynced }
{}
