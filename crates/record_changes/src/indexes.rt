// The indexes of a store, all at once.
ghost use Rattle.std.specs.Prelude.{◌≡◌, true, [], None, is_some, OnOk, IsErrOf};
ghost use Rattle.idb_schema.specs.Definitions.{IsIndexInfo, index_named};
ghost use Rattle.index_tables.specs.Unique.{broken_key, is_broken};
ghost use Rattle.object_stores.specs.Changed.{store_with_index};
ghost use Rattle.record_changes.specs.Loosened.{with_indexes, AreIndexes};

use crate::error::RecordError;
use idb_base::NoMemory;
use idb_schema::{IndexInfo, IndexInfos};
use index_tables::Tables;
use object_stores::{IndexError, StoreVersion};
use std::alloc::Global;

/// Drops all indexes of the store. After want of memory it may still have some.
fn drop_indexes<T: Tables>(store: &mut StoreVersion<T>) -> Result<(), NoMemory>
    ensures { OnOk result (store.new.store ≡ with_indexes [] store.old.store) }
{
    let mut left = store.info().indexes.len();
    while left > 0 {
        left -= 1;
        store.drop_index(left)?;
    }
    Ok(())
}

/// Adds an index, whose name is new.
fn add_index<T: Tables>(
    alloc: Global,
    store: &mut StoreVersion<T>,
    index: &IndexInfo,
) -> Result<(), RecordError>
    requires sound { IsIndexInfo index.now }
    requires new_name { index_named store.old.store.info.indexes index.now.name ≡ None }
    ensures added { OnOk result (store.new.store ≡ store_with_index store.old.store index.now) }
    ensures damaged { IsErrOf result RecordError.Damaged
        → is_some (broken_key index.now store.old.store.records) ≡ true }
{
    match store.add_index(index.copy(alloc)?) {
        Ok(()) => Ok(()),
        Err(IndexError::Constraint { key: _ }) => Err(RecordError::Damaged),
        Err(IndexError::NoMemory) => Err(RecordError::NoMemory),
    }
}

/// Adds indexes to a store that has none.
fn add_indexes<T: Tables>(
    alloc: Global,
    store: &mut StoreVersion<T>,
    indexes: &IndexInfos,
) -> Result<(), RecordError>
    requires none { store.old.store.info.indexes ≡ [] }
    requires sound { AreIndexes indexes.now }
    ensures made { OnOk result (store.new.store ≡ with_indexes indexes.now store.old.store) }
    ensures damaged { IsErrOf result RecordError.Damaged
        → is_broken indexes.now store.old.store.records ≡ true }
{
    for place in 0..indexes.len() {
        match indexes.at(place) {
            Some(index) => match add_index(alloc, store, index) {
                Ok(()) => {}
                Err(e) => return Err(e),
            },
            None => unreachable!(),
        }
    }
    Ok(())
}

/// Gives the store these indexes, and no others. `Damaged` comes where one of them is unique and would have two rows of one key. After an
/// error the store may have other ones.
pub(crate) fn set_indexes<T: Tables>(
    alloc: Global,
    store: &mut StoreVersion<T>,
    indexes: &IndexInfos,
) -> Result<(), RecordError>
    requires { AreIndexes indexes.now }
    ensures made { OnOk result (store.new.store ≡ with_indexes indexes.now store.old.store) }
    ensures damaged { IsErrOf result RecordError.Damaged
        → is_broken indexes.now store.old.store.records ≡ true }
{
    drop_indexes(store)?;
    add_indexes(alloc, store, indexes)
}
