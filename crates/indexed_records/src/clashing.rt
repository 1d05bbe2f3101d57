// Whether a new record's rows would give a key of a unique index a second row.
ghost use Rattle.std.specs.Prelude.{◌≡◌, ◌<◌, false, Some, None, slice_get};
ghost use Rattle.std.specs.Ordering.{is_eq};
ghost use Rattle.key_order.specs.KeyOrder.{key_cmp};
ghost use Rattle.clone_values.specs.View.{key_tree_of};
ghost use Rattle.index_tables.specs.Rows.{rows_of};
ghost use Rattle.index_tables.specs.Unique.{first_repeated};
ghost use Rattle.store_contents.specs.Clashes.{has_other, clash_in, clash_at, clash_any, AreUnique};

use crate::reading::table_at;
use crate::row_lists::RowLists;
use clone_values::Key;
use idb_schema::IndexInfos;
use index_tables::{IndexTable, Rows, Tables};
use key_order::compare;
use std::cmp::Ordering;

/// Whether some index has another record's row with the key of one of these rows.
pub(crate) fn clashes_any<T: Tables>(
    indexes: &IndexInfos,
    tables: &Vec<IndexTable<T>>,
    rows: &RowLists,
    primary: &Key,
) -> bool
    requires { AreUnique indexes.now tables.now.items }
    ensures { result
        ≡ clash_any indexes.now tables.now.items rows.now (key_tree_of primary.now) }
{
    for place in 0..rows.len() {
        if clashes_at(indexes, tables, rows, place, primary) {
            return true;
        }
    }
    false
}

/// The same of the index at this place.
fn clashes_at<T: Tables>(
    indexes: &IndexInfos,
    tables: &Vec<IndexTable<T>>,
    rows: &RowLists,
    place: usize,
    primary: &Key,
) -> bool
    requires { AreUnique indexes.now tables.now.items }
    ensures { result ≡ clash_at (slice_get indexes.now place) (slice_get tables.now.items place)
        (slice_get rows.now place) (key_tree_of primary.now) }
{
    let Some(index) = indexes.at(place) else {
        return false;
    };
    let Some(table) = table_at(tables, place) else {
        return false;
    };
    let Some(list) = rows.at(place) else {
        return false;
    };
    if !index.unique {
        return false;
    }
    clashes_in(table, list, primary)
}

/// The same of one unique index.
fn clashes_in<T: Tables>(table: &IndexTable<T>, rows: &Rows, primary: &Key) -> bool
    requires { first_repeated (rows_of table.now.rows) ≡ None }
    ensures { result ≡ clash_in table.now.rows (key_tree_of primary.now) rows.now }
{
    for place in 0..rows.len() {
        if let Some(row) = rows.at(place) {
            if has_another(table, &row.key, primary) {
                return true;
            }
        }
    }
    false
}

/// Whether a row with this index key leads to another record; found by halving.
fn has_another<T: Tables>(table: &IndexTable<T>, key: &Key, primary: &Key) -> bool
    requires { first_repeated (rows_of table.now.rows) ≡ None }
    ensures { result ≡ has_other table.now.rows (key_tree_of key.now) (key_tree_of primary.now) }
{
    match table.row(table.find_first(Some(key), false)) {
        Some(row) => ties(key, &row.key) && !ties(primary, &row.primary),
        None => false,
    }
}

pub(crate) fn ties(one: &Key, other: &Key) -> bool
    ensures { result ≡ is_eq (key_cmp (key_tree_of one.now) (key_tree_of other.now)) }
{
    match compare(one, other) {
        Ordering::Equal => true,
        _ => false,
    }
}
