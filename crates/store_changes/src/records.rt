// Changes of the records of a store and of its generator's number.
ghost use Rattle.std.specs.Prelude.{◌≡◌, true, false, is_some, OnOk, OnErr, IsErrOf};
ghost use Rattle.std.specs.FinMap as finite;
ghost use Rattle.clone_values.specs.View.{key_tree_of, tree_of};
ghost use Rattle.key_generators.specs.Generators.{IsGenerator};
ghost use Rattle.object_stores.specs.Changed.{store_with_record, store_without_record, cleared, with_current};
ghost use Rattle.object_stores.specs.IsStore.{IsStored};
ghost use Rattle.object_stores.specs.Store.{KeepsPast};
ghost use Rattle.store_changes.specs.Making.{breaks};

use crate::error::ChangeError;
use clone_values::{Key, Value};
use idb_base::NoMemory;
use idb_keys::KeyRange;
use index_tables::Tables;
use object_stores::{StoreError, StoreVersion, mark_laws};
use std::alloc::Global;

/// The record of this key has this value; the generator's number stays.
pub(crate) fn set_record<T: Tables>(
    store: &mut StoreVersion<T>,
    key: Key,
    value: Value,
) -> Result<(), ChangeError>
    requires { IsStored (key_tree_of key) (tree_of value) }
    ensures set { OnOk result (store.new.store
        ≡ store_with_record store.old.store (key_tree_of key) (tree_of value)) }
    ensures present { IsErrOf result ChangeError.Missing → ⊥ }
    ensures broken { IsErrOf result ChangeError.Constraint
        → breaks (Some (store_with_record store.old.store (key_tree_of key) (tree_of value))) ≡ true }
    ensures unchanged { OnErr result (store.new.store ≡ store.old.store) }
    ensures past { KeepsPast store.old store.new }
{
    mark_laws();
    let current = store.current();
    match store.store_record(value, Some(key), false) {
        Ok(key) => drop(key),
        Err(StoreError::Constraint) => return Err(ChangeError::Constraint),
        Err(StoreError::NoMemory) => return Err(ChangeError::NoMemory),
    }
    if store.info().auto {
        store.set_current(current);
    }
    Ok(())
}

/// The record of this key goes.
pub(crate) fn remove_record<T: Tables>(
    alloc: Global,
    store: &mut StoreVersion<T>,
    key: Key,
) -> Result<(), ChangeError>
    ensures removed { OnOk result (store.new.store ≡ store_without_record store.old.store (key_tree_of key)) }
    ensures found { OnOk result (is_some (finite.get store.old.store.records (key_tree_of key)) ≡ true) }
    ensures missing { IsErrOf result ChangeError.Missing
        → is_some (finite.get store.old.store.records (key_tree_of key)) ≡ false }
    ensures kept { IsErrOf result ChangeError.Constraint → ⊥ }
    ensures unchanged { OnErr result (store.new.store ≡ store.old.store) }
    ensures past { KeepsPast store.old store.new }
{
    mark_laws();
    if store.value_of(&key).is_none() {
        drop(key);
        return Err(ChangeError::Missing);
    }
    delete_only(alloc, store, key)?;
    Ok(())
}

/// Deletes what has this key.
fn delete_only<T: Tables>(
    alloc: Global,
    store: &mut StoreVersion<T>,
    key: Key,
) -> Result<(), NoMemory>
    ensures removed { OnOk result (store.new.store ≡ store_without_record store.old.store (key_tree_of key)) }
    ensures unchanged { OnErr result (store.new.store ≡ store.old.store) }
    ensures past { KeepsPast store.old store.new }
{
    mark_laws();
    let range = KeyRange::only(alloc, key)?;
    let deleted = store.delete_range(&range);
    drop(range);
    match deleted {
        Ok(_) => Ok(()),
        Err(e) => Err(e),
    }
}

/// The generator has this current number.
pub(crate) fn set_number<T: Tables>(
    store: &mut StoreVersion<T>,
    current: u64,
) -> Result<(), ChangeError>
    requires { IsGenerator current }
    ensures set { OnOk result (store.new.store ≡ with_current store.old.store current) }
    ensures found { OnOk result (store.old.store.info.auto ≡ true) }
    ensures missing { IsErrOf result ChangeError.Missing → store.old.store.info.auto ≡ false }
    ensures kept { IsErrOf result ChangeError.Constraint → ⊥ }
    ensures unchanged { OnErr result (store.new.store ≡ store.old.store) }
    ensures past { KeepsPast store.old store.new }
{
    mark_laws();
    if !store.info().auto {
        return Err(ChangeError::Missing);
    }
    store.set_current(current);
    Ok(())
}

/// All records go.
pub(crate) fn clear<T: Tables>(store: &mut StoreVersion<T>) -> Result<(), ChangeError>
    ensures cleared { OnOk result (store.new.store ≡ cleared store.old.store) }
    ensures present { IsErrOf result ChangeError.Missing → ⊥ }
    ensures kept { IsErrOf result ChangeError.Constraint → ⊥ }
    ensures unchanged { OnErr result (store.new.store ≡ store.old.store) }
    ensures past { KeepsPast store.old store.new }
{
    store.clear()?;
    Ok(())
}
