// The rows of one record in each index.
ghost use Rattle.std.specs.Prelude.{◌≡◌, [], ◌∷◌, map, IfOk};
ghost use Rattle.clone_values.specs.View.{key_tree_of, tree_of};
ghost use Rattle.index_tables.specs.View.{row_of};
ghost use Rattle.index_tables.specs.RecordRows.{rows_of_record};
ghost use Rattle.store_contents.specs.Contents.{rows_in_indexes};

use crate::row_lists::RowLists;
use clone_values::{Key, Keys, Value};
use idb_base::NoMemory;
use idb_schema::{IndexInfo, IndexInfos};
use index_tables::{Row, Rows};
use key_paths::{Extracted, extract};
use std::alloc::Global;

/// The rows of a record, index by index.
pub(crate) fn rows_in_each(
    alloc: Global,
    indexes: &IndexInfos,
    key: &Key,
    value: &Value,
) -> Result<RowLists, NoMemory>
    ensures { IfOk result (λ rows. rows
        ≡ rows_in_indexes indexes.now (key_tree_of key.now) (tree_of value.now)) }
{
    if indexes.len() == 1 {
        if let Some(index) = indexes.at(0) {
            return Ok(RowLists::one(rows_in_one(alloc, index, key, value)?));
        }
    }
    RowLists::of(lists_in_each(alloc, indexes, key, value)?)
}

fn lists_in_each(
    alloc: Global,
    indexes: &IndexInfos,
    key: &Key,
    value: &Value,
) -> Result<Vec<Rows>, NoMemory>
    ensures { IfOk result (λ rows. rows.items
        ≡ rows_in_indexes indexes.now (key_tree_of key.now) (tree_of value.now)) }
{
    let mut lists = Vec::with_capacity(alloc, indexes.len())?;
    for place in 0..indexes.len() {
        if let Some(index) = indexes.at(place) {
            lists.push(rows_in_one(alloc, index, key, value)?)?;
        }
    }
    Ok(lists)
}

/// The rows of a record in one index.
pub(crate) fn rows_in_one(
    alloc: Global,
    index: &IndexInfo,
    key: &Key,
    value: &Value,
) -> Result<Rows, NoMemory>
    ensures { IfOk result (λ rows. rows
        ≡ rows_of_record index.now (key_tree_of key.now) (tree_of value.now)) }
{
    match extract(alloc, &index.path, index.multi, value)? {
        Extracted::One(one) => row_of_key(alloc, one, key),
        Extracted::Many(keys) => rows_of_keys(alloc, &keys, key),
        Extracted::Invalid => Ok(Rows::new(alloc)),
        Extracted::Failure => Ok(Rows::new(alloc)),
    }
}

fn row_of_key(alloc: Global, key: Key, primary: &Key) -> Result<Rows, NoMemory>
    ensures { IfOk result (λ rows. rows ≡ (key_tree_of key, key_tree_of primary.now) ∷ []) }
{
    let primary = primary.copy(alloc)?;
    Ok(Rows::one(Row { key, primary }))
}

fn copied_row(alloc: Global, key: &Key, primary: &Key) -> Result<Row, NoMemory>
    ensures { IfOk result (λ row. row_of row ≡ (key_tree_of key.now, key_tree_of primary.now)) }
{
    Ok(Row {
        key: key.copy(alloc)?,
        primary: primary.copy(alloc)?,
    })
}

fn rows_of_keys(alloc: Global, keys: &Keys, primary: &Key) -> Result<Rows, NoMemory>
    ensures { IfOk result (λ rows. rows ≡ map (λ k. (k, key_tree_of primary.now)) keys.now) }
{
    let mut rows = Vec::with_capacity(alloc, keys.len())?;
    for place in 0..keys.len() {
        if let Some(key) = keys.at(place) {
            rows.push(copied_row(alloc, key, primary)?)?;
        }
    }
    Ok(Rows::from_vec(rows))
}
