// Requests that change records.
ghost use Rattle.std.specs.Prelude.{◌≡◌, ◌++◌, Some, None, option_map, IfOk, OnOk, IsErrOf};
ghost use Rattle.std.specs.FinMap as finite;
ghost use Rattle.clone_values.specs.KeyValues.{value_of_key};
ghost use Rattle.clone_values.specs.View.{tree_of, key_tree_of};
ghost use Rattle.item_changes.specs.Store.{KeepsPast};
ghost use Rattle.item_changes.specs.Storing.{CanStore};
ghost use Rattle.store_requests.specs.Runs.{storing, deleting, clearing, number_changes, record_changes, removals, HasRun};

use clone_values::{Key, Keys, Text, Value, copy_value};
use idb_base::NoMemory;
use idb_calls::{Delta, Deltas};
use idb_keys::{KeyRange, Over};
use index_tables::Tables;
use item_changes::{StoreError, StoreVersion};
use key_paths::to_value;
use std::alloc::Global;

/// The names by which changes speak of a store.
#[derive(Drop)]
pub struct StoreNames {
    pub database: Text,
    pub store: Text,
}

/// `add`, `put` and a cursor's `update`: stores the value, with the key that is given, stands in it or is generated, and answers
/// the key. By `add` a record of that key is kept, and the answer is `Constraint`. After `NoMemory` the changes may be short of
/// what was done: it can only be undone then.
pub fn put_record<T: Tables>(
    alloc: Global,
    store: &mut StoreVersion<T>,
    names: &StoreNames,
    value: Value,
    key: Option<Key>,
    add: bool,
    changes: &mut Deltas,
) -> Result<Value, StoreError>
    requires { CanStore store.old.store.info.path store.old.store.info.auto (tree_of value)
        (option_map key_tree_of key) }
    ensures stored { IfOk result (λ v. HasRun
        (storing names.now store.old.store (tree_of value) (option_map key_tree_of key) add)
        (Some (tree_of v)) store.new.store changes.old changes.new) }
    ensures refused { IsErrOf result StoreError.Constraint → HasRun
        (storing names.now store.old.store (tree_of value) (option_map key_tree_of key) add)
        None store.new.store changes.old changes.new }
    ensures past { KeepsPast store.old store.new }
{
    let before = store.current();
    match store.store_record(value, key, add) {
        Ok(key) => match key_answer(alloc, before, store, names, &key, changes) {
            Ok(answer) => return Ok(answer),
            Err(NoMemory) => return Err(StoreError::NoMemory),
        },
        Err(StoreError::Constraint) => return Err(StoreError::Constraint),
        Err(StoreError::NoMemory) => return Err(StoreError::NoMemory),
    }
}

/// Notes what was stored under this key, and answers the key.
fn key_answer<T: Tables>(
    alloc: Global,
    before: u64,
    store: &StoreVersion<T>,
    names: &StoreNames,
    key: &Key,
    changes: &mut Deltas,
) -> Result<Value, NoMemory>
    ensures answer { IfOk result (λ v. tree_of v ≡ value_of_key (key_tree_of key.now)) }
    ensures noted { OnOk result (changes.new ≡ changes.old
        ++ (number_changes names.now before store.now.store.current
        ++ record_changes names.now (key_tree_of key.now)
        (finite.get store.now.store.records (key_tree_of key.now)))) }
{
    note_stored(alloc, before, store, names, key, changes)?;
    Ok(to_value(alloc, key)?)
}

/// Notes the generator's number, where it is another one than before, and the record of this key.
fn note_stored<T: Tables>(
    alloc: Global,
    before: u64,
    store: &StoreVersion<T>,
    names: &StoreNames,
    key: &Key,
    changes: &mut Deltas,
) -> Result<(), NoMemory>
    ensures { OnOk result (changes.new ≡ changes.old
        ++ (number_changes names.now before store.now.store.current
        ++ record_changes names.now (key_tree_of key.now)
        (finite.get store.now.store.records (key_tree_of key.now)))) }
{
    note_number(alloc, before, store.current(), names, changes)?;
    match store.value_of(key) {
        Some(value) => note_record(alloc, names, key, value, changes),
        None => Ok(()),
    }
}

/// Notes the generator's number, where it is another one than before.
fn note_number(
    alloc: Global,
    before: u64,
    after: u64,
    names: &StoreNames,
    changes: &mut Deltas,
) -> Result<(), NoMemory>
    ensures { OnOk result (changes.new ≡ changes.old ++ number_changes names.now before after) }
{
    if before != after {
        changes.push(Delta::Current {
            db: names.database.copy(alloc)?,
            store: names.store.copy(alloc)?,
            current: after,
        })?;
    }
    Ok(())
}

/// Notes the record of this key.
fn note_record(
    alloc: Global,
    names: &StoreNames,
    key: &Key,
    value: &Value,
    changes: &mut Deltas,
) -> Result<(), NoMemory>
    ensures { OnOk result (changes.new ≡ changes.old
        ++ record_changes names.now (key_tree_of key.now) (Some (tree_of value.now))) }
{
    changes.push(Delta::Put {
        db: names.database.copy(alloc)?,
        store: names.store.copy(alloc)?,
        key: key.copy(alloc)?,
        value: copy_value(alloc, value)?,
    })
}

/// `delete`, and a cursor's: the records in range go. It answers Undefined. After `NoMemory` the changes may be short of what was
/// done.
pub fn delete_records<T: Tables>(
    alloc: Global,
    store: &mut StoreVersion<T>,
    names: &StoreNames,
    range: &KeyRange,
    changes: &mut Deltas,
) -> Result<Value, NoMemory>
    ensures deleted { IfOk result (λ v. HasRun (deleting names.now store.old.store range.now)
        (Some (tree_of v)) store.new.store changes.old changes.new) }
    ensures past { KeepsPast store.old store.new }
{
    let keys = store.get_all_keys(Over::Store, Some(range), 0)?;
    let _ = store.delete_range(range)?;
    note_removals(alloc, names, &keys, changes)?;
    Ok(Value::Undefined)
}

/// Notes that the records of these keys went, in order.
fn note_removals(
    alloc: Global,
    names: &StoreNames,
    keys: &Keys,
    changes: &mut Deltas,
) -> Result<(), NoMemory>
    ensures { OnOk result (changes.new ≡ changes.old ++ removals names.now keys.now) }
{
    for place in 0..keys.len() {
        match keys.at(place) {
            Some(key) => changes.push(Delta::Remove {
                db: names.database.copy(alloc)?,
                store: names.store.copy(alloc)?,
                key: key.copy(alloc)?,
            })?,
            None => unreachable!(),
        }
    }
    Ok(())
}

/// `clear`: all records go. It answers Undefined. After `NoMemory` the change may not be noted though it was made.
pub fn clear_store<T: Tables>(
    alloc: Global,
    store: &mut StoreVersion<T>,
    names: &StoreNames,
    changes: &mut Deltas,
) -> Result<Value, NoMemory>
    ensures cleared { IfOk result (λ v. HasRun (clearing names.now store.old.store)
        (Some (tree_of v)) store.new.store changes.old changes.new) }
    ensures past { KeepsPast store.old store.new }
{
    changes.push(Delta::Clear {
        db: names.database.copy(alloc)?,
        store: names.store.copy(alloc)?,
    })?;
    store.clear()?;
    Ok(Value::Undefined)
}
