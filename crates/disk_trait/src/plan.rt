// What a disk in memory is to do: which calls fail, when it stops, and what the stop leaves.

/// What a stop leaves of the bytes in doubt: those that were written, and the length that changed, since the last sync
/// of their area, or the last restart, that answered `Ok`.
#[derive(Clone, Copy, Debug, PartialEq, Eq)]
pub enum Image {
    /// The bytes as written, and each cut done.
    Kept,
    /// The area as at that sync or restart, with its length.
    Dropped,
    /// This byte at each place that was written, and each cut done.
    Byte(u8),
}

/// When a disk in memory fails. Calls are numbered from 1.
#[derive(Drop)]
pub struct DiskPlan {
    /// The numbers of the calls that fail.
    pub fail_at: Vec<u64>,
    /// Each call after this many fails, until a `restart` that comes then.
    pub stop_after: Option<u64>,
    /// What a `restart` finds.
    pub image: Image,
}
