// What a cursor goes over: the rows of an index, or the records of a store.
ghost use Rattle.std.specs.Prelude.{◌≡◌, List, length, slice_get, option_map};
ghost use Rattle.index_tables.specs.Rows.{RowTree};
ghost use Rattle.index_tables.specs.View.{rows_in};
ghost use Rattle.idb_cursors.specs.Views.{AreRising, records_in, rows_rise, records_rise};
ghost use Rattle.idb_cursors.specs.View.{row_shown};

use clone_values::{Key, Value};
use index_tables::Row;
use sorted_table::OrderedTable;

/// Members with a key and a primary key, in the order of both. Contracts see the list of these pairs. Nothing is copied and no
/// memory taken.
pub trait RowView {
    ghost rows: { Self → List RowTree };

    /// How many members there are.
    fn len(&self) -> usize
        ensures { result ≡ length (rows self.now) };

    /// The key and the primary key of the member at this place, counted from 0; `None` past the end.
    fn at(&self, place: usize) -> Option<(&Key, &Key)>
        ensures { option_map row_shown result ≡ slice_get (rows self.now) place };

    ghost rises: { (v : Self) → AreRising (rows v) };
}

/// The rows of an index, as its table keeps them.
#[derive(Drop)]
pub struct RowsShown<'a, R: OrderedTable<Row, ()>> {
    pub table: &'a R,
}

impl<'a, R: OrderedTable<Row, ()>> RowView for RowsShown<'a, R> {
    ghost rows = { λ v. rows_in (R.entries v.table.now) };

    fn len(&self) -> usize {
        self.table.len()
    }

    fn at(&self, place: usize) -> Option<(&Key, &Key)> {
        match self.table.nth(place) {
            Some((row, _)) => Some((&row.key, &row.primary)),
            None => None,
        }
    }

    ghost rises = { λ v. rows_rise (R.entries v.table.now) (R.rises v.table.now) };
}

/// The records of a store, as its table keeps them: both keys of a member are the record's.
#[derive(Drop)]
pub struct RecordsShown<'a, R: OrderedTable<Key, Value>> {
    pub table: &'a R,
}

impl<'a, R: OrderedTable<Key, Value>> RowView for RecordsShown<'a, R> {
    ghost rows = { λ v. records_in (R.entries v.table.now) };

    fn len(&self) -> usize {
        self.table.len()
    }

    fn at(&self, place: usize) -> Option<(&Key, &Key)> {
        match self.table.nth(place) {
            Some((key, _)) => Some((key, key)),
            None => None,
        }
    }

    ghost rises = { λ v. records_rise (R.entries v.table.now) (R.rises v.table.now) };
}
