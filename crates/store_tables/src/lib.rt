// The tables that the stores of the program are made of.
#![tactic(auto)]

ghost use Rattle.std.specs.Prelude.{◌≡◌, []};

use clone_values::{Key, Value};
use index_tables::{Row, Tables};
use leaf_table::LeafTable;
use std::alloc::Global;

/// Tables whose entries lie in leaves of at most 64.
pub struct LeafTables;

impl Tables for LeafTables {
    type Records = LeafTable<Key, Value>;

    type Rows = LeafTable<Row, ()>;

    fn records(alloc: Global) -> LeafTable<Key, Value> {
        LeafTable::new(alloc)
    }

    fn rows(alloc: Global) -> LeafTable<Row, ()> {
        LeafTable::new(alloc)
    }
}
