// What a session reports.
use crate::lines::ClientLines;
use clone_values::{Numbers, Text};
use idb_base::Listed;
use idb_calls::{PendingLines, Tokens};

/// A database that stands when a session begins.
#[derive(Drop)]
pub struct Has {
    pub name: Text,
    pub version: u64,
}

/// The databases of an opening, in the order of the bytes of their names.
pub type Opening = Listed<Has>;

/// How a session ended.
#[derive(Clone, Copy, Debug, PartialEq, Eq)]
pub enum ReportEnd {
    /// All that was committed was flushed.
    Flush,
    /// It was let go without a flush.
    Drop,
    /// The disk met a fault.
    Fault,
}

/// What a session reports.
#[derive(Drop)]
pub struct Report {
    /// Which session of its script it is, from 1.
    pub session: u32,
    pub opening: Opening,
    pub clients: ClientLines,
    /// The steps of the desk.
    pub order: Tokens,
    /// The transactions in the order in which they finished.
    pub finish: Numbers,
    /// Those of them that committed and may write.
    pub commits: Numbers,
    /// The opens and deletes that were never answered, by client and then by request.
    pub pending: PendingLines,
    pub end: ReportEnd,
}

/// The reports of the sessions of a script, in order.
pub type Reports = Listed<Report>;
