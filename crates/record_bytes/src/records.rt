// Records of a log.
use idb_base::Listed;
use idb_calls::Deltas;

/// What a committed transaction changed.
#[derive(Drop)]
pub struct LogRecord {
    /// The transaction's number in its session.
    pub number: u64,
    pub deltas: Deltas,
}

/// Records, in the order in which their transactions were committed.
pub type Records = Listed<LogRecord>;
