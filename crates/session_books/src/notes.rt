// What a book notes for contracts.
ghost use Rattle.std.specs.Prelude.{◌≡◌};
ghost use Rattle.session_books.specs.States.{takes_more};
ghost use Rattle.session_books.specs.Seen.{end_seen};

use idb_calls::TxTrace;
use std::snapshot::Snapshot;

/// The trace of a commit, for contracts alone: it has no bytes.
#[derive(Drop)]
pub(crate) struct CommitNote {
    pub(crate) trace: Snapshot<TxTrace>,
}

/// How a book ended, if it did.
#[derive(Drop)]
pub(crate) enum Ended {
    Running,
    Flushed,
    AtCommit(CommitNote),
    AtFlush,
}

/// Whether it has not ended.
pub(crate) fn is_open(ended: &Ended) -> bool
    ensures { result ≡ takes_more (end_seen ended.now) }
{
    matches!(ended, Ended::Running)
}
