// The first of a range, and all of it.
ghost use Rattle.std.specs.Prelude.{◌≡◌, option_map, slice_get, IfOk};
ghost use Rattle.std.specs.Option.{option_and_then};
ghost use Rattle.std.specs.FinMap as finite;
ghost use Rattle.clone_values.specs.View.{key_tree_of, tree_of};
ghost use Rattle.indexed_records.specs.Reading.{members_in, selected, asked, limited, first_primary, first_value, primary_keys, values_in, value_seen};

use crate::spans::{limited_span, lower_end};
use clone_values::{Items, Key, Keys, Value, copy_value};
use idb_base::{GREATEST_LENGTH, NoMemory};
use idb_keys::{KeyRange, Over};
use indexed_records::{IndexedRecords, Tables};
use std::alloc::Global;

/// A copy of the value of the first record whose key is in the range ("retrieve a value from an object store"); over an
/// index, of the record of the first row. `None` where there is none.
pub fn get<T: Tables>(
    alloc: Global,
    records: &IndexedRecords<T>,
    over: Over,
    range: &KeyRange,
) -> Result<Option<Value>, NoMemory>
    ensures { IfOk result (λ value. option_map tree_of value ≡ first_value records.now.records
        (selected range.now (members_in records.now.info.indexes records.now.records over))) }
{
    match first_in(records, over, range) {
        Some(place) => match value_at(records, over, place) {
            Some(value) => Ok(Some(copy_value(alloc, value)?)),
            None => Ok(None),
        },
        None => Ok(None),
    }
}

/// A copy of the primary key of the first record or row whose key is in the range ("retrieve a key from an object
/// store"); `None` where there is none.
pub fn get_key<T: Tables>(
    alloc: Global,
    records: &IndexedRecords<T>,
    over: Over,
    range: &KeyRange,
) -> Result<Option<Key>, NoMemory>
    ensures { IfOk result (λ key. option_map key_tree_of key ≡ first_primary
        (selected range.now (members_in records.now.info.indexes records.now.records over))) }
{
    match first_in(records, over, range) {
        Some(place) => match records.row(over, place) {
            Some((_, primary)) => Ok(Some(primary.copy(alloc)?)),
            None => Ok(None),
        },
        None => Ok(None),
    }
}

/// The place of the first member whose key is in the range: the first that meets the lower bound, unless it is past the
/// upper one.
fn first_in<T: Tables>(records: &IndexedRecords<T>, over: Over, range: &KeyRange) -> Option<usize>
    ensures { slice_get (selected range.now (members_in records.now.info.indexes records.now.records over)) 0
        ≡ option_and_then (slice_get (members_in records.now.info.indexes records.now.records over)) result }
{
    let start = lower_end(records, over, range);
    match records.row(over, start) {
        Some((key, _)) => {
            if range.includes(key) {
                Some(start)
            } else {
                None
            }
        }
        None => None,
    }
}

/// Copies of the values of the records whose key is in the range, in order, or of the first `limit` of them; 0 is no limit.
/// Over an index, of the records of the rows. Without a range, of all. `NoMemory` comes too where they are more than a
/// list holds.
pub fn get_all<T: Tables>(
    alloc: Global,
    records: &IndexedRecords<T>,
    over: Over,
    range: Option<&KeyRange>,
    limit: u32,
) -> Result<Items, NoMemory>
    ensures { IfOk result (λ items. items ≡ values_in records.now.records (limited limit
        (selected (asked range.entry) (members_in records.now.info.indexes records.now.records over)))) }
{
    let (start, past) = limited_span(records, over, range, limit);
    let mut items = Vec::new(alloc);
    for place in start..past {
        if let Some(value) = value_at(records, over, place) {
            items.push(copy_value(alloc, value)?)?;
        }
    }
    if items.len() > GREATEST_LENGTH {
        return Err(NoMemory);
    }
    Items::from_vec(alloc, items)
}

/// Copies of the primary keys of the records or rows whose key is in the range, in order, or of the first `limit` of them;
/// 0 is no limit. Without a range, of all. `NoMemory` comes too where they are more than a list holds.
pub fn get_all_keys<T: Tables>(
    alloc: Global,
    records: &IndexedRecords<T>,
    over: Over,
    range: Option<&KeyRange>,
    limit: u32,
) -> Result<Keys, NoMemory>
    ensures { IfOk result (λ keys. keys ≡ primary_keys (limited limit
        (selected (asked range.entry) (members_in records.now.info.indexes records.now.records over)))) }
{
    let (start, past) = limited_span(records, over, range, limit);
    let mut keys = Vec::new(alloc);
    for place in start..past {
        if let Some((_, primary)) = records.row(over, place) {
            keys.push(primary.copy(alloc)?)?;
        }
    }
    if keys.len() > GREATEST_LENGTH {
        return Err(NoMemory);
    }
    Keys::from_vec(alloc, keys)
}

/// The value of the record of the member at this place; over an index the record is looked up by its primary key.
fn value_at<T: Tables>(records: &IndexedRecords<T>, over: Over, place: usize) -> Option<&Value>
    ensures { option_map value_seen result ≡ option_and_then (λ m. finite.get records.now.records m.1)
        (slice_get (members_in records.now.info.indexes records.now.records over) place) }
{
    match over {
        Over::Store => stored_at(records, place),
        Over::Index(_) => match records.row(over, place) {
            Some((_, primary)) => records.value_of(primary),
            None => None,
        },
    }
}

/// The value of the record at this place of the order of keys.
fn stored_at<T: Tables>(records: &IndexedRecords<T>, place: usize) -> Option<&Value>
    ensures { option_map value_seen result
        ≡ option_map (λ e. e.1) (slice_get (finite.entries records.now.records) place) }
{
    match records.record_at(place) {
        Some((_, value)) => Some(value),
        None => None,
    }
}
