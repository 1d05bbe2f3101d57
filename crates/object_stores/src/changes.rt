// What was changed since the last mark was forgotten, and what undoes it.
use clone_values::{Key, Value};
use index_tables::Tables;
use range_reads::{Dropped, Emptied, IndexedRecords, RowLists};

/// A change that can be undone.
#[derive(Drop)]
pub(crate) enum Change<T: Tables> {
    /// A record came, with these rows.
    Added {
        key: Key,
        rows: RowLists,
    },
    /// A record went, with these rows.
    Removed {
        key: Key,
        value: Value,
        rows: RowLists,
    },
    /// A record got another value: it had this one, with the first rows, and has the second now.
    Replaced {
        key: Key,
        value: Value,
        rows: RowLists,
        new_rows: RowLists,
    },
    /// A record got another value, which gives the same rows: it had this one.
    Revalued {
        key: Key,
        value: Value,
    },
    /// All records went; they were these, and the changes before it needed so many records and rows.
    Cleared {
        emptied: Emptied<T>,
        removed: usize,
        rows: usize,
    },
    /// The last index came.
    IndexAdded,
    /// An index went.
    IndexDropped {
        dropped: Dropped<T>,
    },
}

/// The content of an object store in its parts: what it has, its changes, and how many records and rows come back where
/// all of these are undone.
#[derive(Drop)]
pub(crate) struct Parts<T: Tables> {
    pub(crate) contents: IndexedRecords<T>,
    pub(crate) log: Vec<Change<T>>,
    pub(crate) removed: usize,
    pub(crate) rows: usize,
}
