// What the table of records and the tables of rows show.
ghost use Rattle.std.specs.Prelude.{◌≡◌, [], IsTrue, length, slice_get, option_map, IfOk, IfErr};
ghost use Rattle.std.specs.Option.{option_copied};
ghost use Rattle.std.specs.FinMap as finite;
ghost use Rattle.clone_values.specs.Tree.{Tree};
ghost use Rattle.clone_values.specs.View.{key_tree_of};
ghost use Rattle.idb_keys.specs.declared.names.Over.TheVariants.{Store, Index};
ghost use Rattle.index_tables.specs.Rows.{rows_of};
ghost use Rattle.index_tables.specs.View.{bound_seen};
ghost use Rattle.store_contents.specs.Contents.{IsRecordAt, IsGapOf};
ghost use Rattle.store_contents.specs.Ends.{IsFirstFrom};
ghost use Rattle.store_contents.specs.Reading.{keys_seen, value_seen};
ghost use Rattle.store_contents.specs.Shown.{shown_by};
ghost use Rattle.store_contents.specs.View.{record_seen, records_of, own_rows};

use crate::clashing::ties;
use clone_values::{Key, Value};
use idb_keys::Over;
use index_tables::{IndexTable, Tables};
use sorted_table::{OrderedTable, find_place};

/// The place of the record of this key, or the place where it would stand.
pub(crate) fn record_in<R: OrderedTable<Key, Value>>(records: &R, key: &Key) -> Result<usize, usize>
    ensures found { IfOk result (λ place. (value : Tree)
        × IsRecordAt (records_of (R.entries records.now)) place (key_tree_of key.now) value) }
    ensures absent { IfErr result (λ place. IsGapOf (records_of (R.entries records.now)) place
        (key_tree_of key.now)) }
{
    match find_place(records, key) {
        Ok(place) => Ok(place),
        Err(place) => Err(place),
    }
}

/// The same, where the record at the place in front of `behind` and the one there are looked at first.
pub(crate) fn record_near<R: OrderedTable<Key, Value>>(
    records: &R,
    behind: usize,
    key: &Key,
) -> Result<usize, usize>
    ensures found { IfOk result (λ place. (value : Tree)
        × IsRecordAt (records_of (R.entries records.now)) place (key_tree_of key.now) value) }
    ensures absent { IfErr result (λ place. IsGapOf (records_of (R.entries records.now)) place
        (key_tree_of key.now)) }
{
    if stands_at(records, behind, key) {
        return Ok(behind);
    }
    let before = behind.saturating_sub(1);
    if stands_at(records, before, key) {
        return Ok(before);
    }
    record_in(records, key)
}

/// Whether the record of this key stands at this place.
fn stands_at<R: OrderedTable<Key, Value>>(records: &R, place: usize, key: &Key) -> bool
    ensures { IsTrue result → (value : Tree)
        × IsRecordAt (records_of (R.entries records.now)) place (key_tree_of key.now) value }
{
    match records.nth(place) {
        Some((found, _)) => ties(found, key),
        None => false,
    }
}

/// How many records there are.
pub(crate) fn count_records<R: OrderedTable<Key, Value>>(records: &R) -> usize
    ensures { result ≡ finite.len (records_of (R.entries records.now)) }
{
    records.len()
}

/// The record at this place.
pub(crate) fn record_nth<R: OrderedTable<Key, Value>>(
    records: &R,
    place: usize,
) -> Option<(&Key, &Value)>
    ensures { option_map record_seen result
        ≡ slice_get (finite.entries (records_of (R.entries records.now))) place }
{
    records.nth(place)
}

/// How many members the store itself shows.
fn records_shown<R: OrderedTable<Key, Value>>(records: &R) -> usize
    ensures { result ≡ length (shown_by (records_of (R.entries records.now)) [] Store) }
{
    records.len()
}

/// The table of records itself: its entries are what the store shows, in order.
pub(crate) fn records_in_order<R: OrderedTable<Key, Value>>(records: &R) -> &R
    ensures { own_rows (R.entries result.now) ≡ shown_by (records_of (R.entries records.now)) [] Store }
{
    records
}

/// The value of the record of this key.
pub(crate) fn value_found<'a, R: OrderedTable<Key, Value>>(
    records: &'a R,
    key: &Key,
) -> Option<&'a Value>
    ensures { option_map value_seen result
        ≡ finite.get (records_of (R.entries records.now)) (key_tree_of key.now) }
{
    match find_place(records, key) {
        Ok(place) => match records.nth(place) {
            Some((_, value)) => Some(value),
            None => unreachable!(),
        },
        Err(_) => None,
    }
}

/// The table of the index at this place; `None` where it has none yet.
pub(crate) fn table_at<T: Tables>(
    tables: &Vec<IndexTable<T>>,
    place: usize,
) -> Option<&IndexTable<T>>
    ensures { option_copied result ≡ slice_get tables.now.items place }
{
    tables.get(place)
}

/// How many members the tables show.
pub(crate) fn shown_count<T: Tables>(
    records: &T::Records,
    tables: &Vec<IndexTable<T>>,
    over: Over,
) -> usize
    ensures { result
        ≡ length (shown_by (records_of (T.Records.entries records.now)) tables.now.items over) }
{
    match over {
        Over::Store => records_shown(records),
        Over::Index(index) => match table_at(tables, index) {
            Some(table) => table.len(),
            None => 0,
        },
    }
}

/// The key of the record at this place, as both of its keys.
fn record_shown<R: OrderedTable<Key, Value>>(records: &R, place: usize) -> Option<(&Key, &Key)>
    ensures { option_map keys_seen result
        ≡ slice_get (shown_by (records_of (R.entries records.now)) [] Store) place }
{
    match records.nth(place) {
        Some((key, _)) => Some((key, key)),
        None => None,
    }
}

/// The two keys of the row at this place.
fn row_shown<T: Tables>(table: &IndexTable<T>, place: usize) -> Option<(&Key, &Key)>
    ensures { option_map keys_seen result ≡ slice_get (rows_of table.now.rows) place }
{
    match table.row(place) {
        Some(row) => Some((&row.key, &row.primary)),
        None => None,
    }
}

/// The member that the tables show at this place.
pub(crate) fn shown_at<'a, T: Tables>(
    records: &'a T::Records,
    tables: &'a Vec<IndexTable<T>>,
    over: Over,
    place: usize,
) -> Option<(&'a Key, &'a Key)>
    ensures { option_map keys_seen result
        ≡ slice_get (shown_by (records_of (T.Records.entries records.now)) tables.now.items over) place }
{
    match over {
        Over::Store => record_shown(records, place),
        Over::Index(index) => match table_at(tables, index) {
            Some(table) => row_shown(table, place),
            None => None,
        },
    }
}

/// The place of the first record whose key meets the lower bound.
pub(crate) fn first_record<R: OrderedTable<Key, Value>>(
    records: &R,
    lower: Option<&Key>,
    lower_open: bool,
) -> usize
    ensures { IsFirstFrom (bound_seen lower.entry lower_open)
        (shown_by (records_of (R.entries records.now)) [] Store) result }
{
    let Some(key) = lower else {
        return 0;
    };
    if records.len() == 0 {
        return 0;
    }
    match find_place(records, key) {
        Ok(place) => { if lower_open { place + 1 } else { place } }
        Err(place) => place,
    }
}

/// The place of the first row of this index whose key meets the lower bound; 0 where it has no table.
pub(crate) fn first_row<T: Tables>(
    tables: &Vec<IndexTable<T>>,
    index: usize,
    lower: Option<&Key>,
    lower_open: bool,
) -> usize
    ensures { IsFirstFrom (bound_seen lower.entry lower_open)
        (shown_by finite.empty tables.now.items (Index index)) result }
{
    match table_at(tables, index) {
        Some(table) => table.find_first(lower, lower_open),
        None => 0,
    }
}
