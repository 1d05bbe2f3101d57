// Which tables hold the records and the rows.
ghost use Rattle.std.specs.Prelude.{◌≡◌, []};

use crate::rows::Row;
use clone_values::{Key, Value};
use sorted_table::{FlatTable, OrderedTable};
use std::alloc::Global;

/// A choice of tables for the records of an object store and for the rows of an index.
pub trait Tables {
    /// A table of records. Stores travel between threads, and their tables with them.
    type Records: OrderedTable<Key, Value> + Send + Sync;

    /// A table of rows.
    type Rows: OrderedTable<Row, ()> + Send + Sync;

    /// An empty table of records; it takes no memory.
    fn records(alloc: Global) -> Self::Records
        ensures empty { Self.Records.entries result ≡ [] }
        ensures spare { Self.Records.spare result ≡ 0 };

    /// An empty table of rows; it takes no memory.
    fn rows(alloc: Global) -> Self::Rows
        ensures empty { Self.Rows.entries result ≡ [] }
        ensures spare { Self.Rows.spare result ≡ 0 };
}

/// Tables of one run each.
pub struct FlatTables;

impl Tables for FlatTables {
    type Records = FlatTable<Key, Value>;

    type Rows = FlatTable<Row, ()>;

    fn records(alloc: Global) -> FlatTable<Key, Value> {
        FlatTable::new(alloc)
    }

    fn rows(alloc: Global) -> FlatTable<Row, ()> {
        FlatTable::new(alloc)
    }
}
