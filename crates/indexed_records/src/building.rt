// The rows of a new index.
ghost use Rattle.std.specs.Prelude.{◌≡◌, ◌+◌, ◌<◌, [], ◌∷◌, ◌++◌, slice_get, option_map, IfOk, IfSome, IfNone, OnOk, OnErr};
ghost use Rattle.std.specs.Option.{option_copied};
ghost use Rattle.clone_values.specs.View.{key_tree_of};
ghost use Rattle.index_tables.specs.Rows.{no_rows, rows_of, count_of};
ghost use Rattle.index_tables.specs.RecordRows.{index_rows};
ghost use Rattle.index_tables.specs.Unique.{first_repeated, broken_key};
ghost use Rattle.indexed_records.specs.Causes.{tied_key};
ghost use Rattle.store_contents.specs.Matches.{InStep};
ghost use Rattle.store_contents.specs.View.{records_of};

use crate::clashing::ties;
use crate::extracting::rows_in_one;
use crate::growing::complete;
use clone_values::{Key, Value};
use idb_base::NoMemory;
use idb_schema::{IndexInfo, IndexInfos};
use index_tables::{IndexTable, Tables};
use sorted_table::OrderedTable;
use std::alloc::Global;

/// Fills the table of a new index, and tells the least key that has two rows where the index is unique.
fn build<T: Tables>(
    alloc: Global,
    index: &IndexInfo,
    records: &T::Records,
    table: &mut IndexTable<T>,
) -> Result<Option<Key>, NoMemory>
    requires { table.old.rows ≡ no_rows }
    ensures rows { OnOk result (table.new.rows
        ≡ index_rows index.now (records_of (T.Records.entries records.now))) }
    ensures broken { IfOk result (λ key. option_map key_tree_of key
        ≡ broken_key index.now (records_of (T.Records.entries records.now))) }
{
    add_all(alloc, index, records, table)?;
    if !index.unique {
        return Ok(None);
    }
    match repeated_key(table) {
        Some(key) => Ok(Some(key.copy(alloc)?)),
        None => Ok(None),
    }
}

/// Adds the rows of all records to a table that has none.
fn add_all<T: Tables, R: OrderedTable<Key, Value>>(
    alloc: Global,
    index: &IndexInfo,
    records: &R,
    table: &mut IndexTable<T>,
) -> Result<(), NoMemory>
    requires { table.old.rows ≡ no_rows }
    ensures { OnOk result (table.new.rows
        ≡ index_rows index.now (records_of (R.entries records.now))) }
{
    for place in 0..records.len() {
        if let Some((key, value)) = records.nth(place) {
            let rows = rows_in_one(alloc, index, key, value)?;
            table.reserve(rows.len())?;
            table.add_rows(rows);
        }
    }
    Ok(())
}

/// The key of the first two neighbouring rows that have one.
fn repeated_key<T: Tables>(table: &IndexTable<T>) -> Option<&Key>
    ensures { option_map key_tree_of (option_copied result) ≡ first_repeated (rows_of table.now.rows) }
{
    for place in 0..table.len() {
        if let Some(key) = key_tied_at(table, place) {
            return Some(key);
        }
    }
    None
}

/// The key of the row at this place, if the next one has it too.
fn key_tied_at<T: Tables>(table: &IndexTable<T>, place: usize) -> Option<&Key>
    requires { place < usize.MAX }
    ensures { option_map key_tree_of (option_copied result)
        ≡ tied_key (slice_get (rows_of table.now.rows) place) (slice_get (rows_of table.now.rows) (place + 1)) }
{
    let Some(row) = table.row(place) else {
        return None;
    };
    let Some(next) = table.row(place + 1) else {
        return None;
    };
    if ties(&row.key, &next.key) {
        Some(&row.key)
    } else {
        None
    }
}

/// Makes an index at the end, with the rows of all records, or tells the least key of which it would have two.
pub(crate) fn add_last<T: Tables>(
    alloc: Global,
    indexes: &mut IndexInfos,
    tables: &mut Vec<IndexTable<T>>,
    records: &T::Records,
    spare: usize,
    info: IndexInfo,
) -> Result<Option<Key>, NoMemory>
    ensures added { IfOk result (λ key. IfNone key (indexes.new ≡ indexes.old ++ info ∷ [])) }
    ensures refused { IfOk result (λ key. IfSome key (λ _. indexes.new ≡ indexes.old)) }
    ensures broken { IfOk result (λ key. option_map key_tree_of key
        ≡ broken_key info (records_of (T.Records.entries records.now))) }
    ensures unchanged { OnErr result (indexes.new ≡ indexes.old) }
    ensures step { InStep indexes.old tables.old.items (records_of (T.Records.entries records.now)) spare
        → InStep indexes.new tables.new.items (records_of (T.Records.entries records.now)) spare }
{
    let mut table = IndexTable::new(alloc);
    if let Some(key) = build(alloc, &info, records, &mut table)? {
        return Ok(Some(key));
    }
    table.reserve(spare)?;
    complete(alloc, indexes, tables)?;
    push_both(indexes, tables, info, table)?;
    Ok(None)
}

/// Puts an index and its table at the end, both or neither.
fn push_both<T: Tables>(
    indexes: &mut IndexInfos,
    tables: &mut Vec<IndexTable<T>>,
    index: IndexInfo,
    table: IndexTable<T>,
) -> Result<(), NoMemory>
    ensures index { OnOk result (indexes.new ≡ indexes.old ++ index ∷ []) }
    ensures table { OnOk result (tables.new.items ≡ tables.old.items ++ table ∷ []) }
    ensures no_index { OnErr result (indexes.new ≡ indexes.old) }
    ensures no_table { OnErr result (tables.new.items ≡ tables.old.items) }
{
    tables.push(table)?;
    match indexes.push(index) {
        Ok(()) => Ok(()),
        Err(error) => {
            tables.pop();
            Err(error)
        }
    }
}
