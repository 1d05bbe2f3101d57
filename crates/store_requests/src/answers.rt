// Requests that read.
ghost use Rattle.std.specs.Prelude.{◌≡◌, IfOk};
ghost use Rattle.clone_values.specs.View.{tree_of};
ghost use Rattle.store_requests.specs.Answers.{value_answer, key_answer, values_answer, keys_answer, count_answer};

use clone_values::{Key, Props, Value};
use idb_base::{GREATEST_INT, NoMemory};
use idb_keys::{KeyRange, Over};
use index_tables::Tables;
use item_changes::StoreVersion;
use key_paths::to_value;
use std::alloc::Global;

/// `get`: the value of the first record in range; over an index, of the record of its first row.
pub fn get_value<T: Tables>(
    store: &StoreVersion<T>,
    over: Over,
    range: &KeyRange,
) -> Result<Value, NoMemory>
    ensures { IfOk result (λ v. tree_of v ≡ value_answer store.now.store over range.now) }
{
    match store.get(over, range)? {
        Some(value) => Ok(value),
        None => Ok(Value::Undefined),
    }
}

/// `getKey`: the primary key of that record.
pub fn get_key<T: Tables>(
    alloc: Global,
    store: &StoreVersion<T>,
    over: Over,
    range: &KeyRange,
) -> Result<Value, NoMemory>
    ensures { IfOk result (λ v. tree_of v ≡ key_answer store.now.store over range.now) }
{
    match store.get_key(over, range)? {
        Some(key) => to_value(alloc, &key),
        None => Ok(Value::Undefined),
    }
}

/// `getAll`: an Array of the values in range, of the first so many where `limit` is not 0.
pub fn get_all_values<T: Tables>(
    alloc: Global,
    store: &StoreVersion<T>,
    over: Over,
    range: &KeyRange,
    limit: u32,
) -> Result<Value, NoMemory>
    ensures { IfOk result (λ v. tree_of v ≡ values_answer store.now.store over range.now limit) }
{
    let items = store.get_all(over, Some(range), limit)?;
    Ok(Value::Array(items, Props::new(alloc)))
}

/// `getAllKeys`: an Array of their primary keys.
pub fn get_all_keys<T: Tables>(
    alloc: Global,
    store: &StoreVersion<T>,
    over: Over,
    range: &KeyRange,
    limit: u32,
) -> Result<Value, NoMemory>
    ensures { IfOk result (λ v. tree_of v ≡ keys_answer store.now.store over range.now limit) }
{
    let keys = store.get_all_keys(over, Some(range), limit)?;
    let listed = Key::Array(keys);
    let value = to_value(alloc, &listed)?;
    Ok(value)
}

/// `count`: how many are in range, or 2^53 where there are more. It takes no memory.
pub fn count_records<T: Tables>(store: &StoreVersion<T>, over: Over, range: &KeyRange) -> Value
    ensures { tree_of result ≡ count_answer store.now.store over range.now }
{
    let count = store.count(over, Some(range));
    if count > GREATEST_INT as u64 {
        return Value::Int(GREATEST_INT);
    }
    Value::Int(count as i64)
}
