// What became of a transaction.
use crate::deltas::Deltas;
use crate::events::Events;
use idb_keys::{Durability, ErrorName, Mode};

/// The greatest number of changes of one transaction.
pub const GREATEST_DELTA_COUNT: usize = 16_777_216;

/// How a transaction ended (Indexed Database API 3.0, "commit a transaction" and "abort a transaction").
#[derive(Clone, Copy, Debug, PartialEq, Eq)]
pub enum Outcome {
    Committed,
    /// The error is `None` where the script itself aborted. A commit that met a fault of the disk is in doubt: it may be found
    /// on reopening or not.
    Aborted {
        error: Option<ErrorName>,
        doubt: bool,
    },
}

/// What a transaction did: its changes, the events of its requests, and how it ended.
#[derive(Drop)]
pub struct TxTrace {
    pub number: u64,
    pub mode: Mode,
    pub durability: Durability,
    pub deltas: Deltas,
    pub lines: Events,
    pub outcome: Outcome,
}
