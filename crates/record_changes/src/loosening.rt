// Indexes of stores that stand in databases, all at once, and what is kept aside of them.
ghost use Rattle.std.specs.Prelude.{◌≡◌, true, false, [], Some, None, is_some, option_map, IfOk, IfSome, IfNone, OnOk, IsErrOf};
ghost use Rattle.std.specs.FinMap as finite;
ghost use Rattle.idb_databases.specs.Items.{IsVersionNumber};
ghost use Rattle.idb_databases.specs.Stores.{IsStoreNamed};
ghost use Rattle.object_stores.specs.IsStore.{IsStore};
ghost use Rattle.store_changes.specs.Making.{breaks};
ghost use Rattle.item_changes.specs.Items.{Name, changed_at, store_at};
ghost use Rattle.item_changes.specs.Effects.{if_there};
ghost use Rattle.record_changes.specs.Loosened.{with_indexes, meant, HasNoRecords, AreIndexes, with_indexes_at, IsAlso, has_unique};

use crate::error::RecordError;
use crate::finding::{has_store, store_of};
use crate::indexes::set_indexes;
use clone_values::Text;
use idb_base::NoMemory;
use idb_databases::{Database, Databases, Versions};
use idb_schema::IndexInfos;
use index_tables::Tables;
use object_stores::StoreVersion;
use std::alloc::Global;

/// Gives the store of this name, if there is one, these indexes, and no others. After an error the store may be gone.
fn set_indexes_in<T: Tables>(
    alloc: Global,
    stores: &mut Versions<T>,
    name: &Text,
    indexes: &IndexInfos,
) -> Result<(), RecordError>
    requires { AreIndexes indexes.now }
    ensures made { OnOk result (stores.new
        ≡ changed_at stores.old name.now (if_there (with_indexes indexes.now))) }
    ensures damaged { IsErrOf result RecordError.Damaged
        → breaks (option_map (with_indexes indexes.now) (finite.get stores.old name.now)) ≡ true }
{
    let _sound = stores.len();
    match stores.remove(name) {
        None => Ok(()),
        Some(store) => {
            let mut store = store;
            set_indexes(alloc, &mut store, indexes)?;
            store.settle();
            stores.insert(store)?;
            Ok(())
        }
    }
}

/// Gives the store of this name, if there is one, these indexes, and no others. `Damaged` comes where one of them is unique and would have
/// two rows of one key. After an error the database may be gone.
pub(crate) fn set_indexes_at<T: Tables>(
    alloc: Global,
    items: &mut Databases<T>,
    db: &Text,
    name: &Text,
    indexes: &IndexInfos,
) -> Result<(), RecordError>
    requires { AreIndexes indexes.now }
    ensures made { OnOk result (items.new ≡ with_indexes_at items.old db.now name.now indexes.now) }
    ensures damaged { IsErrOf result RecordError.Damaged
        → breaks (option_map (with_indexes indexes.now) (store_at items.old db.now name.now)) ≡ true }
{
    let _sound = items.len();
    match items.remove(db) {
        None => Ok(()),
        Some(database) => {
            let Database {
                name: _,
                version,
                stores,
            } = database;
            let mut stores = stores;
            set_indexes_in(alloc, &mut stores, name, indexes)?;
            items.insert(Database {
                name: db.copy(alloc)?,
                version,
                stores,
            })?;
            Ok(())
        }
    }
}

/// Takes out what is kept aside of the stores of this database.
fn take_stores<T: Tables>(alloc: Global, aside: &mut Databases<T>, db: &Text) -> Versions<T>
    ensures stores { (name : Name) → finite.get result name ≡ store_at aside.old db.now name }
    ensures left { aside.new ≡ finite.remove aside.old db.now }
{
    match aside.remove(db) {
        Some(database) => {
            let Database {
                name: _,
                version: _,
                stores,
            } = database;
            stores
        }
        None => Versions::new(alloc),
    }
}

/// Puts a store aside, under its name. After want of memory others of its database may be gone.
fn put_aside<T: Tables>(
    alloc: Global,
    aside: &mut Databases<T>,
    db: &Text,
    store: StoreVersion<T>,
) -> Result<(), NoMemory>
    ensures { OnOk result (IsAlso db.now store.store.info.name store.store aside.old aside.new) }
{
    let mut stores = take_stores(alloc, aside, db);
    stores.insert(store)?;
    aside.insert(Database {
        name: db.copy(alloc)?,
        version: 1,
        stores,
    })?;
    Ok(())
}

/// Keeps the indexes of the store of this name aside, if there is one. What is kept of it already stays.
fn keep_aside<T: Tables>(
    alloc: Global,
    items: &Databases<T>,
    aside: &mut Databases<T>,
    db: &Text,
    name: &Text,
) -> Result<(), NoMemory>
    ensures same { OnOk result (meant items.now aside.new ≡ meant items.now aside.old) }
    ensures kept { OnOk result (is_some (store_at items.now db.now name.now) ≡ true
        → is_some (store_at aside.new db.now name.now) ≡ true) }
    ensures blank { OnOk result (HasNoRecords aside.old → HasNoRecords aside.new) }
{
    if has_store(aside, db, name) {
        return Ok(());
    }
    let _sound = items.len();
    match store_of(items, db, name) {
        None => Ok(()),
        Some(store) => {
            let info = store.info().copy(alloc)?;
            put_aside(alloc, aside, db, StoreVersion::new(alloc, info))?;
            Ok(())
        }
    }
}

/// Loosens the store of this name, if there is one: its indexes are kept aside, and it has none.
pub(crate) fn loosen<T: Tables>(
    alloc: Global,
    items: &mut Databases<T>,
    aside: &mut Databases<T>,
    db: &Text,
    name: &Text,
) -> Result<(), NoMemory>
    ensures same { OnOk result (meant items.new aside.new ≡ meant items.old aside.old) }
    ensures none { OnOk result (has_unique (store_at items.new db.now name.now) ≡ false) }
    ensures kept { OnOk result (is_some (store_at items.new db.now name.now) ≡ true
        → is_some (store_at aside.new db.now name.now) ≡ true) }
    ensures blank { OnOk result (HasNoRecords aside.old → HasNoRecords aside.new) }
{
    keep_aside(alloc, items, aside, db, name)?;
    match set_indexes_at(alloc, items, db, name, &IndexInfos::new(alloc)) {
        Ok(()) => Ok(()),
        Err(RecordError::Damaged) => unreachable!(),
        Err(RecordError::NoMemory) => Err(NoMemory),
    }
}
