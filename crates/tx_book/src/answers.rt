// What became of a transaction that was entered, and of the commits that waited.

/// What became of a transaction that finished.
#[derive(Clone, Copy, Debug, PartialEq, Eq)]
pub enum Finish {
    /// It committed, and with it its batch ended: it is on the disk, with those that waited.
    Sealed,
    /// It committed, and waits for the end of its batch: a stop before then loses it.
    Waiting,
    /// It aborted or only read, and is entered as finished alone.
    Noted,
    /// The disk failed in this call, as the batch that it ended was written. It is in doubt, with those that waited: they are
    /// found on reopening all together or not at all. It is entered as finished alone.
    DiskFault,
    /// The disk failed in an earlier call, when its count of faults was this. The transaction did not commit, and is entered as
    /// finished alone.
    Faulted { seen: u64 },
    /// Memory ran out. It is not entered.
    NoMemory,
}

/// What became of the commits that waited.
#[derive(Clone, Copy, Debug, PartialEq, Eq)]
pub enum Flush {
    /// They are on the disk.
    Sealed,
    /// There were none.
    Nothing,
    /// The disk failed in this call. They are found on reopening all together or not at all.
    DiskFault,
    /// The disk failed in an earlier call, when its count of faults was this.
    Faulted { seen: u64 },
    /// Memory ran out. They wait as before.
    NoMemory,
}
