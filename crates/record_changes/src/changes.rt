// One change of a record, where stores may be loosened.
ghost use Rattle.std.specs.Prelude.{◌≡◌, true, false, is_some, IfOk, OnOk, IsErrOf};
ghost use Rattle.clone_values.specs.View.{key_tree_of, tree_of};
ghost use Rattle.idb_calls.specs.View.{delta_of};
ghost use Rattle.idb_calls.specs.Deltas.{CreateStore, Put};
ghost use Rattle.item_changes.specs.Items.{store_at};
ghost use Rattle.item_changes.specs.Effects.{applied, applies};
ghost use Rattle.database_changes.specs.StoreChanges.{CanApply};
ghost use Rattle.record_changes.specs.Loosened.{meant, HasNoRecords, IsForgotten, has_unique, is_apart, MeansTheSame, IsOnIndexes, CannotBreak};

use crate::error::RecordError;
use crate::finding::{has_store, has_unique};
use crate::loosening::loosen;
use crate::safe::change_safely;
use clone_values::{Key, Text, Value, copy_value};
use database_changes::change_databases;
use idb_base::NoMemory;
use idb_calls::Delta;
use idb_databases::Databases;
use index_tables::Tables;
use path_grammar::KeyPath;
use std::alloc::Global;
use store_changes::ChangeError;

/// Makes a change of the databases, where it means the same on them.
pub(crate) fn change_here<T: Tables>(
    alloc: Global,
    items: &mut Databases<T>,
    aside: &Databases<T>,
    change: Delta,
) -> Result<(), RecordError>
    requires can { CanApply (delta_of change) }
    requires same { MeansTheSame items.old aside.now (delta_of change) }
    requires safe { CannotBreak items.old (delta_of change) }
    ensures made { OnOk result (meant items.new aside.now
        ≡ applied (meant items.old aside.now) (delta_of change)) }
    ensures found { OnOk result (applies (meant items.old aside.now) (delta_of change) ≡ true) }
    ensures damaged { IsErrOf result RecordError.Damaged
        → applies (meant items.old aside.now) (delta_of change) ≡ false }
{
    let _ = aside;
    if change_safely(alloc, items, change)? {
        Ok(())
    } else {
        Err(RecordError::Damaged)
    }
}

/// Makes a change of the databases, where it means the same on them. Where a unique index stands against it, the store of this name is
/// loosened instead, and the answer is false.
pub(crate) fn change_or_loosen<T: Tables>(
    alloc: Global,
    items: &mut Databases<T>,
    aside: &mut Databases<T>,
    db: &Text,
    name: &Text,
    change: Delta,
) -> Result<bool, RecordError>
    requires can { CanApply (delta_of change) }
    requires same { MeansTheSame items.old aside.old (delta_of change) }
    ensures made { IfOk result (λ made. made ≡ true
        → meant items.new aside.new ≡ applied (meant items.old aside.old) (delta_of change)) }
    ensures found { IfOk result (λ made. made ≡ true
        → applies (meant items.old aside.old) (delta_of change) ≡ true) }
    ensures damaged { IsErrOf result RecordError.Damaged
        → applies (meant items.old aside.old) (delta_of change) ≡ false }

    // Where it is loosened.
    ensures unmade { IfOk result (λ made. made ≡ false
        → meant items.new aside.new ≡ meant items.old aside.old) }
    ensures none { IfOk result (λ made. made ≡ false
        → has_unique (store_at items.new db.now name.now) ≡ false) }
    ensures kept { IfOk result (λ made. made ≡ false → is_some (store_at items.new db.now name.now) ≡ true
        → is_some (store_at aside.new db.now name.now) ≡ true) }

    ensures blank { OnOk result (HasNoRecords aside.old → HasNoRecords aside.new) }
{
    match change_databases(alloc, items, change) {
        Ok(()) => Ok(true),
        Err(ChangeError::Missing) => Err(RecordError::Damaged),
        Err(ChangeError::Constraint) => {
            loosen(alloc, items, aside, db, name)?;
            Ok(false)
        }
        Err(ChangeError::NoMemory) => Err(RecordError::NoMemory),
    }
}

/// Makes a change of the indexes that are kept aside of a store, if the store is still there.
pub(crate) fn change_kept<T: Tables>(
    alloc: Global,
    items: &Databases<T>,
    aside: &mut Databases<T>,
    db: &Text,
    name: &Text,
    change: Delta,
) -> Result<(), RecordError>
    requires can { CanApply (delta_of change) }
    requires indexes { IsOnIndexes db.now name.now (delta_of change) }
    requires kept { is_some (store_at items.now db.now name.now) ≡ true
        → is_some (store_at aside.old db.now name.now) ≡ true }
    requires blank { HasNoRecords aside.old }
    ensures made { OnOk result (meant items.now aside.new
        ≡ applied (meant items.now aside.old) (delta_of change)) }
    ensures found { OnOk result (applies (meant items.now aside.old) (delta_of change) ≡ true) }
    ensures damaged { IsErrOf result RecordError.Damaged
        → applies (meant items.now aside.old) (delta_of change) ≡ false }
    ensures blank { OnOk result (HasNoRecords aside.new) }
{
    let there = has_store(items, db, name);
    let found = change_safely(alloc, aside, change)?;
    if there && found {
        Ok(())
    } else {
        Err(RecordError::Damaged)
    }
}

/// Forgets what is kept aside of the store of this name. After want of memory more may be gone.
fn forget<T: Tables>(
    alloc: Global,
    aside: &mut Databases<T>,
    db: &Text,
    name: &Text,
) -> Result<(), NoMemory>
    ensures { OnOk result (IsForgotten db.now name.now aside.old aside.new) }
{
    let change = Delta::DropStore {
        db: db.copy(alloc)?,
        store: name.copy(alloc)?,
    };
    let _found = change_safely(alloc, aside, change)?;
    Ok(())
}

/// Makes a new store.
pub(crate) fn create_store<T: Tables>(
    alloc: Global,
    items: &mut Databases<T>,
    aside: &mut Databases<T>,
    db: Text,
    store: Text,
    path: Option<KeyPath>,
    auto: bool,
) -> Result<(), RecordError>
    requires { CanApply (CreateStore db store path auto) }
    ensures made { OnOk result (meant items.new aside.new
        ≡ applied (meant items.old aside.old) (CreateStore db store path auto)) }
    ensures found { OnOk result
        (applies (meant items.old aside.old) (CreateStore db store path auto) ≡ true) }
    ensures damaged { IsErrOf result RecordError.Damaged
        → applies (meant items.old aside.old) (CreateStore db store path auto) ≡ false }
    ensures blank { OnOk result (HasNoRecords aside.old → HasNoRecords aside.new) }
{
    forget(alloc, aside, &db, &store)?;
    let change = Delta::CreateStore {
        db,
        store,
        path,
        auto,
    };
    if change_safely(alloc, items, change)? {
        Ok(())
    } else {
        Err(RecordError::Damaged)
    }
}

/// An equal put.
fn copied_put(
    alloc: Global,
    db: &Text,
    store: &Text,
    key: &Key,
    value: &Value,
) -> Result<Delta, NoMemory>
    ensures { IfOk result (λ change. delta_of change
        ≡ Put db.now store.now (key_tree_of key.now) (tree_of value.now)) }
{
    Ok(Delta::Put {
        db: db.copy(alloc)?,
        store: store.copy(alloc)?,
        key: key.copy(alloc)?,
        value: copy_value(alloc, value)?,
    })
}

/// Makes a put into a store that has a unique index. It may be refused, which uses it up: so what is tried is a copy, and no other put is.
fn put_if_unique<T: Tables>(
    alloc: Global,
    items: &mut Databases<T>,
    aside: &mut Databases<T>,
    db: Text,
    store: Text,
    key: Key,
    value: Value,
) -> Result<(), RecordError>
    requires { CanApply (Put db store (key_tree_of key) (tree_of value)) }
    ensures made { OnOk result (meant items.new aside.new
        ≡ applied (meant items.old aside.old) (Put db store (key_tree_of key) (tree_of value))) }
    ensures found { OnOk result (applies (meant items.old aside.old)
        (Put db store (key_tree_of key) (tree_of value)) ≡ true) }
    ensures damaged { IsErrOf result RecordError.Damaged → applies (meant items.old aside.old)
        (Put db store (key_tree_of key) (tree_of value)) ≡ false }
    ensures blank { OnOk result (HasNoRecords aside.old → HasNoRecords aside.new) }
{
    match try_put(alloc, items, aside, &db, &store, &key, &value) {
        Ok(made) => {
            if made {
                drop(value);
                drop(key);
                drop(store);
                drop(db);
                return Ok(());
            }
            change_apart(
                alloc,
                items,
                aside,
                Delta::Put {
                    db,
                    store,
                    key,
                    value,
                },
            )
        }
        Err(e) => {
            drop(value);
            drop(key);
            drop(store);
            drop(db);
            Err(e)
        }
    }
}

/// Tries an equal put. Where a unique index stands against it, the store is loosened instead, and the answer is false.
fn try_put<T: Tables>(
    alloc: Global,
    items: &mut Databases<T>,
    aside: &mut Databases<T>,
    db: &Text,
    store: &Text,
    key: &Key,
    value: &Value,
) -> Result<bool, RecordError>
    requires { CanApply (Put db.now store.now (key_tree_of key.now) (tree_of value.now)) }
    ensures made { IfOk result (λ made. made ≡ true → meant items.new aside.new
        ≡ applied (meant items.old aside.old) (Put db.now store.now (key_tree_of key.now) (tree_of value.now))) }
    ensures found { IfOk result (λ made. made ≡ true → applies (meant items.old aside.old)
        (Put db.now store.now (key_tree_of key.now) (tree_of value.now)) ≡ true) }
    ensures damaged { IsErrOf result RecordError.Damaged → applies (meant items.old aside.old)
        (Put db.now store.now (key_tree_of key.now) (tree_of value.now)) ≡ false }

    // Where it is loosened.
    ensures unmade { IfOk result (λ made. made ≡ false
        → meant items.new aside.new ≡ meant items.old aside.old) }
    ensures none { IfOk result (λ made. made ≡ false
        → has_unique (store_at items.new db.now store.now) ≡ false) }

    ensures blank { OnOk result (HasNoRecords aside.old → HasNoRecords aside.new) }
{
    let tried = copied_put(alloc, db, store, key, value)?;
    change_or_loosen(alloc, items, aside, db, store, tried)
}

/// Makes a put.
pub(crate) fn put_record<T: Tables>(
    alloc: Global,
    items: &mut Databases<T>,
    aside: &mut Databases<T>,
    db: Text,
    store: Text,
    key: Key,
    value: Value,
) -> Result<(), RecordError>
    requires { CanApply (Put db store (key_tree_of key) (tree_of value)) }
    ensures made { OnOk result (meant items.new aside.new
        ≡ applied (meant items.old aside.old) (Put db store (key_tree_of key) (tree_of value))) }
    ensures found { OnOk result (applies (meant items.old aside.old)
        (Put db store (key_tree_of key) (tree_of value)) ≡ true) }
    ensures damaged { IsErrOf result RecordError.Damaged → applies (meant items.old aside.old)
        (Put db store (key_tree_of key) (tree_of value)) ≡ false }
    ensures blank { OnOk result (HasNoRecords aside.old → HasNoRecords aside.new) }
{
    if has_unique(items, &db, &store) {
        return put_if_unique(alloc, items, aside, db, store, key, value);
    }
    change_apart(
        alloc,
        items,
        aside,
        Delta::Put {
            db,
            store,
            key,
            value,
        },
    )
}

/// Makes a change that has nothing to do with indexes, and leaves unique ones unbroken.
pub(crate) fn change_apart<T: Tables>(
    alloc: Global,
    items: &mut Databases<T>,
    aside: &Databases<T>,
    change: Delta,
) -> Result<(), RecordError>
    requires can { CanApply (delta_of change) }
    requires apart { is_apart (delta_of change) ≡ true }
    requires safe { CannotBreak items.old (delta_of change) }
    ensures made { OnOk result (meant items.new aside.now
        ≡ applied (meant items.old aside.now) (delta_of change)) }
    ensures found { OnOk result (applies (meant items.old aside.now) (delta_of change) ≡ true) }
    ensures damaged { IsErrOf result RecordError.Damaged
        → applies (meant items.old aside.now) (delta_of change) ≡ false }
{
    change_here(alloc, items, aside, change)
}
